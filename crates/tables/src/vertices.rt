// A vertex out of its row and into it: the record of a key, a position and a leading arc, held in two tables.
// It carries document 01's "Vertex: key, position, leading arc or none" and "Keys are u32, counted up from 0 per kind and never given twice".

ghost use Rattle.std.specs.Prelude.{◌≡◌, ℕ, List};
ghost use Rattle.rules.specs.Table.{Table};
ghost use Rattle.rules.specs.Mesh.{mesh, one_up};
ghost use Rattle.rules.specs.Link.{vertex_at, put_vertex};

use crate::{points, rows};
use rules::{PositionRow, Vertex, VertexRow};

// One more. At its top a number stays.
pub fn one_up(k: u32) -> u32
    ensures { result ≡ one_up k }
{
    k.saturating_add(1)
}

// The vertex in the row that a link names, whatever the other tables hold.
// Kept: two tables of the five, since a caller writes others meanwhile; the contract says it for all others.
pub fn vertex_at(vertices: &[VertexRow], positions: &[PositionRow], v: u32) -> Vertex
    ensures { (a e f : Table) (k : List ℕ) → result ≡ vertex_at (mesh vertices.now positions.now a e f k) v }
{
    let key = rows::cell(vertices, v, 0).saturating_sub(1);
    let position = points::position_at(positions, v);
    let leading = rows::cell(vertices, v, 1);
    Vertex {
        key,
        position,
        leading,
    }
}

// The vertex written into the row that a link names; the other tables stay.
pub fn put_vertex(vertices: &mut [VertexRow], positions: &mut [PositionRow], v: u32, x: Vertex)
    ensures { (a e f : Table) (k : List ℕ) →
        mesh vertices.new positions.new a e f k ≡ put_vertex (mesh vertices.old positions.old a e f k) v x }
{
    let first = one_up(x.key);
    rows::put_row(vertices, v, [first, x.leading]);
    points::put_position(positions, v, x.position);
}
