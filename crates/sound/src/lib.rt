// Whether the tables of a mesh are sound: document 01's paragraph "Sound means", a function for each of its phrases, and the two queries.
// Every function reads any tables of any sizes, changes none and needs no room but a list of names, 32 KiB, and as much for its slots, on
// the stack; each answer is an equation with a definition of rules.

#![tactic(auto)]

pub mod keys; // keys.rt: keys differ and lie below their counter
pub mod edges; // edges.rt: each edge and its two arcs
pub mod links; // links.rt: leading, next, previous and face of a record
pub mod faces; // faces.rt: each face and its ring
pub mod short; // short.rt: rings of three arcs and of four
pub mod blanks; // blanks.rt: unused rows are zero, coordinates finite
pub mod places; // places.rt: positions, by blocks of rows
pub mod holders; // holders.rt: arcs that hold a face, by blocks of rows
pub mod passes; // passes.rt: one pass over each table, all phrases on one row at once
pub mod queries; // queries.rt: all of it, and the calls check_mesh, face_arity
