// What a mesh file is answered (request L3): the refusals in their order, and the mesh that the file holds, filled into a room, judged there, and copied over
// only where it is sound.

#![tactic(auto)]

pub mod decide;
pub mod refusals;
pub mod settle;
