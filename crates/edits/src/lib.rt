// The edits on one set of tables, behind their checks: here what an edit knows of the tables near it, an insert with its checks, as other edits use
// it, and the edits of arcs; beside this crate `split`, `poke`, `bridge`, `extrude`. Document 01's rules 6 to 10.
// Each leaves the tables as its definition has them, refused in mid-edit or not, and answers; what is half done the call throws away.

#![tactic(auto)]

pub mod arc;
pub mod face;
pub mod near;
pub mod pieces;
