// What lies near an edit: its vertices, the arcs that leave or reach them, and the rings of these. An edit changes no other arc that was there (`Local` in
// kept), so by these it is told whether its result is sound, and these alone are copied over the mesh when it is accepted. Document 01: "work in lent room,
// copied over only when accepted", and answer 8.

#![tactic(auto)]

pub mod rings;
pub mod rows;
pub mod vertices;
