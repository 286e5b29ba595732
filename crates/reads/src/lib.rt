// A mesh read from a file (request L3): sizes first, the file read in the parts of room one that are as long as the tables, and both rooms zero in the end.

#![tactic(auto)]

pub mod call;
