// The mesh file's writer (document 02, L3): a table of contents, the key counters, then four bodies back to back in key order.

#![tactic(auto)]

pub mod words; // words.rt: numbers in bytes, low byte first
pub mod cells; // cells.rt: what a record's cells hold
pub mod records; // records.rt: one record
pub mod bodies; // bodies.rt: the records of a kind, in key order
pub mod files; // files.rt: the whole file, and the call

// How many records each body has.
#[derive(Clone, Copy)]
pub struct Counts {
    pub vertices: u32,
    pub arcs: u32,
    pub edges: u32,
    pub faces: u32,
}
