// The public calls: thin over the transaction, exported for programs in C and Rust. A slice passes as a pointer and a count. Each call's
// statement is the definition of that call in rules, with its answer told in numbers, for every lent table, counter, room and argument.

// Kept: the C interface: each table is a pointer and a count of its own, so every exported call makes the mesh and its rooms of them.

#![tactic(auto)]

pub mod bridges;
mod changing;
pub mod extrudes;
pub mod faces;
pub mod queries;
pub mod vertices;
