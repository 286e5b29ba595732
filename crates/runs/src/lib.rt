// The script program's work between reading and writing: the lines of an input as it comes in, each run as one call, and what is written
// for it. It carries document 01's "The script program": "one line a call, at most 512 bytes before the newline, which the last may lack
// (a longer one is answered 2 and skipped), with tables of 64 vertices, 128 edges and 64 faces".

#![tactic(auto)]

ghost use Rattle.std.specs.Prelude.{◌≡◌};
ghost use Rattle.rules.specs.Mesh.{mesh, room};
ghost use Rattle.rules.specs.Script.{empty_mesh, empty_room};

use rules::{ArcRow, EdgeRow, FaceRow, PositionRow, VertexRow};

pub mod run; // run.rt: one line, one call, one answer
pub mod held; // held.rt: the line that is read
pub mod feed; // feed.rt: a chunk of input, with all lines that end in it
pub mod counts; // counts.rt: the check, and the last line

// Tables of 64 vertices, 128 edges and 64 faces, and two arcs for each edge; and counters. They are lent as a mesh or as working room.
#[derive(Drop)]
pub struct Tables {
    pub vertices: [VertexRow; 64],
    pub positions: [PositionRow; 64],
    pub arcs: [ArcRow; 256],
    pub edges: [EdgeRow; 128],
    pub faces: [FaceRow; 64],
    pub counters: [u32; 3],
}

impl Tables {
    // With no record.
    pub fn empty() -> Self
        ensures is_mesh { mesh result.vertices result.positions result.arcs result.edges result.faces result.counters ≡ empty_mesh 64 128 64 }
        ensures is_room { room result.vertices result.positions result.arcs result.edges result.faces ≡ empty_room 64 128 64 }
    {
        Tables {
            vertices: [[0; 2]; 64],
            positions: [[0.0; 3]; 64],
            arcs: [[0; 6]; 256],
            edges: [[0; 3]; 128],
            faces: [[0; 3]; 64],
            counters: [0; 3],
        }
    }
}

// The bytes of a line that are held: one more than a line may have, so that a longer one is told.
pub const HELD: usize = 513;

// The most bytes of a chunk, and room for what is written for them: at most 64 bytes for a line, and a line for each byte.
pub const CHUNK: usize = 1024;

pub const ANSWERS: usize = 65536;
