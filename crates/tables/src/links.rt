// Links: what connects two arcs, an arc and its face, a vertex and its leading arc; and the places of a list of links.
// It carries document 01's rule 2, "Connecting two arcs sets next of the first and previous of the second", and its list of 64 places.

ghost use Rattle.std.specs.Prelude.{◌≡◌, get_or};
ghost use Rattle.rules.specs.Table.{put};

use crate::rows;
use rules::{ArcRow, Links, VertexRow};

// x leads on to y: next of x and previous of y.
pub fn connect(arcs: &mut [ArcRow], x: u32, y: u32)
    ensures { arcs.new ≡ put (put arcs.old x 2 y) y 3 x }
{
    rows::put(arcs, x, 2, y);
    rows::put(arcs, y, 3, x);
}

// The face that an arc bounds; 0 takes it away.
pub fn set_face(arcs: &mut [ArcRow], x: u32, face: u32)
    ensures { arcs.new ≡ put arcs.old x 4 face }
{
    rows::put(arcs, x, 4, face);
}

// The arc that a vertex's outgoing list starts at.
pub fn set_leading(vertices: &mut [VertexRow], v: u32, x: u32)
    ensures { vertices.new ≡ put vertices.old v 1 x }
{
    rows::put(vertices, v, 1, x);
}

// The link at a place of a list: 0 past its 64 places.
// Kept: document 01's list reads as 0 past its places.
pub fn link_at(l: Links, i: usize) -> u32
    ensures { result ≡ get_or l.at i 0 }
{
    match l.at.get(i) {
        Some(x) => *x,
        None => 0,
    }
}
