// New records, a vertex, an arc, an edge with both its arcs, a face; and a face taken out. Document 01's rules 1, 2 and 4, and the record
// of rule 5.
// Each takes the lowest unused row and the next key of its kind. Everything is defined on every table: where no row is free, what
// would be written is written nowhere, and a counter at its top stays.

#![tactic(auto)]

mod blocks;
pub mod edge;
pub mod face;
pub mod free;
pub mod vertex;
