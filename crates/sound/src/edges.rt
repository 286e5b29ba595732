// Edges and their arcs. It carries document 01's "each edge has both arcs, its ends differ and exist, and no two edges join the same pair".
// An edge's name is the pair of its ends, the lesser first. That each arc's edge joins its ends is counted (passes.rt).

ghost use Rattle.std.specs.Prelude.{◌≡◌, ◌&&◌};
ghost use Rattle.sound.specs.Tests.{both_row, ends_row, opposite_rows, two_vertices};
ghost use Rattle.sound.specs.Names.{edge_name};

use crate::faces;
use rules::{ArcRow, EdgeRow, VertexRow};
use tables::rows;

// ---- one row: an unused row passes

// Whether two arcs hold the edge and have each other's ends swapped.
fn opposites(p: ArcRow, q: ArcRow, e: usize) -> bool
    ensures { result ≡ opposite_rows p q e }
{
    rows::wide(p[5]) == e && (rows::wide(q[5]) == e && (p[0] == q[1] && p[1] == q[0]))
}

// Whether two vertices differ and exist.
fn two_vertices(vertices: &[VertexRow], a: u32, b: u32) -> bool
    ensures { result ≡ two_vertices vertices.now a b }
{
    a != b && (rows::cell(vertices, a, 0) != 0 && rows::cell(vertices, b, 0) != 0)
}

// An edge has both arcs: the two that it names are there, hold it, and have each other's ends swapped. Its ends differ, and exist: those of
// the arc that it names, and so those of its other arc. An arc whose ends exist is there.
// Kept: the two rows are read before they are compared, and `let .. else` leaves where one is missing.
pub fn edge_arcs(vertices: &[VertexRow], arcs: &[ArcRow], row: EdgeRow, e: usize) -> bool
    ensures { result ≡ (both_row arcs.now row e && ends_row vertices.now arcs.now row) }
{
    if row[0] == 0 {
        return true;
    }
    let Some(p) = faces::row_of(arcs, row[1]) else {
        return false;
    };
    let Some(q) = faces::row_of(arcs, row[2]) else {
        return false;
    };
    opposites(p, q, e) && two_vertices(vertices, p[0], p[1])
}

// ---- no two edges join the same pair: no two have one name

// An edge's name: the ends of the arc that it names.
pub fn edge_name(arcs: &[ArcRow], row: EdgeRow) -> u32
    ensures { result ≡ edge_name arcs.now row }
{
    if row[0] == 0 {
        return 0;
    }
    names::pair_name(rows::cell(arcs, row[1], 0), rows::cell(arcs, row[1], 1))
}
