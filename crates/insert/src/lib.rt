// Face insert on one set of tables, behind its checks. Document 01's rule 5.
// The perimeter's arcs are found once, before the edges. So is what the exterior will ask of the lists of its vertices, which are older than the
// edges: each list's first arc, and first opposite, that no face will hold.

#![tactic(auto)]

pub mod face;
pub mod perimeter;
pub mod search;
