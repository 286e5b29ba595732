// The records of a kind in key order, arcs by source, then destination: the links of its used rows, sorted.
// It carries document 02's "in key order (arcs by source, then destination)" of the mesh file.

#![tactic(auto)]

pub mod keys; // keys.rt: the key in a row
pub mod kinds; // kinds.rt: the four kinds of records, and which of two comes before the other
pub mod sorted; // sorted.rt: the used links of a kind in order

pub use kinds::Kind;
