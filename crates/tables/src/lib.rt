// The leaves that every mesh edit stands on: a cell, a row, a scan of a table, a coordinate, a copy of a set, an answer.
// Each function is total: it has no requires, whatever the tables hold, however long they are, and whatever is asked of them;
// and each says one equation with a definition of the crate rules, document 01 written out.

#![tactic(auto)]

pub mod rows; // rows.rt: one cell or row by its link, and scans
pub mod points; // points.rt: coordinates, positions and moves
pub mod vertices; // vertices.rt: a vertex out of its row and into it
pub mod links; // links.rt: what connects arcs, faces and vertices
mod zeros; // zeros.rt: rows that are zero already
pub mod sets; // sets.rt: a set of five tables: copied, zeroed, measured
pub mod answers; // answers.rt: an answer as numbers
