// Vertex insert as a program in C or Rust calls it: numbers, and each table as a pointer and a count. Document 01's rule 1.

ghost use Rattle.std.specs.Prelude.{◌≡◌};
ghost use Rattle.rules.specs.Point.{position};
ghost use Rattle.rules.specs.Call as Calls;
ghost use Rattle.calls.specs.Replied.{shown, replied};
ghost use Rattle.rules.specs.Mesh.{mesh, room};

use crate::changing::changed;
use rules::{
    ArcRow, EdgeRow, Edit, FaceRow, MeshMut, Position, PositionRow, Reply, RoomMut, VertexRow,
};

// Document 01's vertex insert.
#[unsafe(no_mangle)]
pub extern "C" fn ul_vertex_insert(
    vertices: &mut [VertexRow],
    positions: &mut [PositionRow],
    arcs: &mut [ArcRow],
    edges: &mut [EdgeRow],
    faces: &mut [FaceRow],
    counters: &mut [u32; 3],
    v1: &mut [VertexRow],
    p1: &mut [PositionRow],
    a1: &mut [ArcRow],
    e1: &mut [EdgeRow],
    f1: &mut [FaceRow],
    v2: &mut [VertexRow],
    p2: &mut [PositionRow],
    a2: &mut [ArcRow],
    e2: &mut [EdgeRow],
    f2: &mut [FaceRow],
    x: f64,
    y: f64,
    z: f64,
) -> Reply
    ensures { shown result (mesh vertices.new positions.new arcs.new edges.new faces.new counters.new) (room v1.new p1.new a1.new e1.new f1.new) (room v2.new p2.new a2.new e2.new f2.new)
        ≡ replied
        (Calls.vertex_insert (mesh vertices.old positions.old arcs.old edges.old faces.old counters.old) (room v1.old p1.old a1.old e1.old f1.old) (room v2.old p2.old a2.old e2.old f2.old)
        (position x y z)) }
{
    let position = Position { x, y, z };
    let mut mesh = MeshMut {
        vertices,
        positions,
        arcs,
        edges,
        faces,
        counters,
    };
    let mut one = RoomMut {
        vertices: v1,
        positions: p1,
        arcs: a1,
        edges: e1,
        faces: f1,
    };
    let mut two = RoomMut {
        vertices: v2,
        positions: p2,
        arcs: a2,
        edges: e2,
        faces: f2,
    };
    changed(
        &mut mesh,
        &mut one,
        &mut two,
        Edit::VertexInsert(position),
        &[],
    )
}
