// Face insert, remove, split, poke and bridge as a program in C or Rust calls them. Document 01's rules 2, 5, 6, 7 and 9.

ghost use Rattle.std.specs.Prelude.{◌≡◌};
ghost use Rattle.rules.specs.Point.{position};
ghost use Rattle.rules.specs.Call as Calls;
ghost use Rattle.calls.specs.Replied.{shown, replied};
ghost use Rattle.rules.specs.Mesh.{mesh, room};

use crate::changing::changed;
use rules::{
    ArcRow, EdgeRow, Edit, FaceRow, MeshMut, Position, PositionRow, Reply, RoomMut, VertexRow,
};

// Face insert of these keys with a mark.
#[unsafe(no_mangle)]
pub extern "C" fn ul_face_insert(
    vertices: &mut [VertexRow],
    positions: &mut [PositionRow],
    arcs: &mut [ArcRow],
    edges: &mut [EdgeRow],
    faces: &mut [FaceRow],
    counters: &mut [u32; 3],
    v1: &mut [VertexRow],
    p1: &mut [PositionRow],
    a1: &mut [ArcRow],
    e1: &mut [EdgeRow],
    f1: &mut [FaceRow],
    v2: &mut [VertexRow],
    p2: &mut [PositionRow],
    a2: &mut [ArcRow],
    e2: &mut [EdgeRow],
    f2: &mut [FaceRow],
    mark: u32,
    keys: &[u32],
) -> Reply
    ensures { shown result (mesh vertices.new positions.new arcs.new edges.new faces.new counters.new) (room v1.new p1.new a1.new e1.new f1.new) (room v2.new p2.new a2.new e2.new f2.new)
        ≡ replied
        (Calls.face_insert (mesh vertices.old positions.old arcs.old edges.old faces.old counters.old) (room v1.old p1.old a1.old e1.old f1.old) (room v2.old p2.old a2.old e2.old f2.old)
        keys.now mark) }
{
    let mut mesh = MeshMut {
        vertices,
        positions,
        arcs,
        edges,
        faces,
        counters,
    };
    let mut one = RoomMut {
        vertices: v1,
        positions: p1,
        arcs: a1,
        edges: e1,
        faces: f1,
    };
    let mut two = RoomMut {
        vertices: v2,
        positions: p2,
        arcs: a2,
        edges: e2,
        faces: f2,
    };
    changed(&mut mesh, &mut one, &mut two, Edit::FaceInsert(mark), keys)
}

// Face remove: the reply has its mark.
#[unsafe(no_mangle)]
pub extern "C" fn ul_face_remove(
    vertices: &mut [VertexRow],
    positions: &mut [PositionRow],
    arcs: &mut [ArcRow],
    edges: &mut [EdgeRow],
    faces: &mut [FaceRow],
    counters: &mut [u32; 3],
    v1: &mut [VertexRow],
    p1: &mut [PositionRow],
    a1: &mut [ArcRow],
    e1: &mut [EdgeRow],
    f1: &mut [FaceRow],
    v2: &mut [VertexRow],
    p2: &mut [PositionRow],
    a2: &mut [ArcRow],
    e2: &mut [EdgeRow],
    f2: &mut [FaceRow],
    face: u32,
) -> Reply
    ensures { shown result (mesh vertices.new positions.new arcs.new edges.new faces.new counters.new) (room v1.new p1.new a1.new e1.new f1.new) (room v2.new p2.new a2.new e2.new f2.new)
        ≡ replied
        (Calls.face_remove (mesh vertices.old positions.old arcs.old edges.old faces.old counters.old) (room v1.old p1.old a1.old e1.old f1.old) (room v2.old p2.old a2.old e2.old f2.old) face) }
{
    let mut mesh = MeshMut {
        vertices,
        positions,
        arcs,
        edges,
        faces,
        counters,
    };
    let mut one = RoomMut {
        vertices: v1,
        positions: p1,
        arcs: a1,
        edges: e1,
        faces: f1,
    };
    let mut two = RoomMut {
        vertices: v2,
        positions: p2,
        arcs: a2,
        edges: e2,
        faces: f2,
    };
    changed(&mut mesh, &mut one, &mut two, Edit::FaceRemove(face), &[])
}

// Split of a face from s to d: the reply has the arc.
#[unsafe(no_mangle)]
pub extern "C" fn ul_face_split(
    vertices: &mut [VertexRow],
    positions: &mut [PositionRow],
    arcs: &mut [ArcRow],
    edges: &mut [EdgeRow],
    faces: &mut [FaceRow],
    counters: &mut [u32; 3],
    v1: &mut [VertexRow],
    p1: &mut [PositionRow],
    a1: &mut [ArcRow],
    e1: &mut [EdgeRow],
    f1: &mut [FaceRow],
    v2: &mut [VertexRow],
    p2: &mut [PositionRow],
    a2: &mut [ArcRow],
    e2: &mut [EdgeRow],
    f2: &mut [FaceRow],
    face: u32,
    s: u32,
    d: u32,
) -> Reply
    ensures { shown result (mesh vertices.new positions.new arcs.new edges.new faces.new counters.new) (room v1.new p1.new a1.new e1.new f1.new) (room v2.new p2.new a2.new e2.new f2.new)
        ≡ replied
        (Calls.face_split (mesh vertices.old positions.old arcs.old edges.old faces.old counters.old) (room v1.old p1.old a1.old e1.old f1.old) (room v2.old p2.old a2.old e2.old f2.old) face s d) }
{
    let mut mesh = MeshMut {
        vertices,
        positions,
        arcs,
        edges,
        faces,
        counters,
    };
    let mut one = RoomMut {
        vertices: v1,
        positions: p1,
        arcs: a1,
        edges: e1,
        faces: f1,
    };
    let mut two = RoomMut {
        vertices: v2,
        positions: p2,
        arcs: a2,
        edges: e2,
        faces: f2,
    };
    changed(
        &mut mesh,
        &mut one,
        &mut two,
        Edit::FaceSplit(face, s, d),
        &[],
    )
}

// Poke of a face at a position: the reply has the new vertex.
#[unsafe(no_mangle)]
pub extern "C" fn ul_face_poke(
    vertices: &mut [VertexRow],
    positions: &mut [PositionRow],
    arcs: &mut [ArcRow],
    edges: &mut [EdgeRow],
    faces: &mut [FaceRow],
    counters: &mut [u32; 3],
    v1: &mut [VertexRow],
    p1: &mut [PositionRow],
    a1: &mut [ArcRow],
    e1: &mut [EdgeRow],
    f1: &mut [FaceRow],
    v2: &mut [VertexRow],
    p2: &mut [PositionRow],
    a2: &mut [ArcRow],
    e2: &mut [EdgeRow],
    f2: &mut [FaceRow],
    face: u32,
    x: f64,
    y: f64,
    z: f64,
) -> Reply
    ensures { shown result (mesh vertices.new positions.new arcs.new edges.new faces.new counters.new) (room v1.new p1.new a1.new e1.new f1.new) (room v2.new p2.new a2.new e2.new f2.new)
        ≡ replied
        (Calls.face_poke (mesh vertices.old positions.old arcs.old edges.old faces.old counters.old) (room v1.old p1.old a1.old e1.old f1.old) (room v2.old p2.old a2.old e2.old f2.old) face
        (position x y z)) }
{
    let position = Position { x, y, z };
    let mut mesh = MeshMut {
        vertices,
        positions,
        arcs,
        edges,
        faces,
        counters,
    };
    let mut one = RoomMut {
        vertices: v1,
        positions: p1,
        arcs: a1,
        edges: e1,
        faces: f1,
    };
    let mut two = RoomMut {
        vertices: v2,
        positions: p2,
        arcs: a2,
        edges: e2,
        faces: f2,
    };
    changed(
        &mut mesh,
        &mut one,
        &mut two,
        Edit::FacePoke(face, position),
        &[],
    )
}

// Bridge of two faces.
#[unsafe(no_mangle)]
pub extern "C" fn ul_face_bridge(
    vertices: &mut [VertexRow],
    positions: &mut [PositionRow],
    arcs: &mut [ArcRow],
    edges: &mut [EdgeRow],
    faces: &mut [FaceRow],
    counters: &mut [u32; 3],
    v1: &mut [VertexRow],
    p1: &mut [PositionRow],
    a1: &mut [ArcRow],
    e1: &mut [EdgeRow],
    f1: &mut [FaceRow],
    v2: &mut [VertexRow],
    p2: &mut [PositionRow],
    a2: &mut [ArcRow],
    e2: &mut [EdgeRow],
    f2: &mut [FaceRow],
    source: u32,
    destination: u32,
) -> Reply
    ensures { shown result (mesh vertices.new positions.new arcs.new edges.new faces.new counters.new) (room v1.new p1.new a1.new e1.new f1.new) (room v2.new p2.new a2.new e2.new f2.new)
        ≡ replied
        (Calls.face_bridge (mesh vertices.old positions.old arcs.old edges.old faces.old counters.old) (room v1.old p1.old a1.old e1.old f1.old)
        (room v2.old p2.old a2.old e2.old f2.old) source destination) }
{
    let mut mesh = MeshMut {
        vertices,
        positions,
        arcs,
        edges,
        faces,
        counters,
    };
    let mut one = RoomMut {
        vertices: v1,
        positions: p1,
        arcs: a1,
        edges: e1,
        faces: f1,
    };
    let mut two = RoomMut {
        vertices: v2,
        positions: p2,
        arcs: a2,
        edges: e2,
        faces: f2,
    };
    changed(
        &mut mesh,
        &mut one,
        &mut two,
        Edit::FaceBridge(source, destination),
        &[],
    )
}
