// The tables that a mesh file's records fill (request L3): a record's cells, whether rows can hold them, a row of each record, and the tables filled from
// the lowest row.

#![tactic(auto)]

pub mod cells;
pub mod fill;
pub mod holding;
pub mod rows;
