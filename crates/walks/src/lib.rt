// Walks over the arcs: a face's ring, its vertices, and places on it. Document 01's rule 3.
// Every walk ends on every table: it has a bound.

#![tactic(auto)]

pub mod rings;
