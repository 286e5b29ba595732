// The checks of the edits before their first change, what an edit needs, and whether the mesh has room for it. They change nothing.
// Document 01's rules 5, 6, 8, 9 and 10, and its order of answers up to 7.

#![tactic(auto)]

pub mod bridge;
pub mod call;
pub mod extrude;
pub mod free;
pub mod insert;
pub mod rings;
pub mod split;
