// All records of a mesh as text, in key order: the used links of each table in order, and a line for each.
// It carries the program meshdump, by which document 01's "Equality is at the module's functions" is compared record by record.

#![tactic(auto)]

pub mod named; // named.rt: a link as the keys that name it
pub mod listed; // listed.rt: the lines of all records of a kind
