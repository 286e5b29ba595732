// Extrude and arc extrude by each of the two moves as a program in C or Rust calls them. Document 01's rule 10.

ghost use Rattle.std.specs.Prelude.{◌≡◌};
ghost use Rattle.rules.specs.declared.Move.TheVariants.{Shift, Scale};
ghost use Rattle.rules.specs.Call as Calls;
ghost use Rattle.calls.specs.Replied.{shown, replied};
ghost use Rattle.rules.specs.Mesh.{mesh, room};

use crate::changing::changed;
use rules::{
    ArcRow, EdgeRow, Edit, FaceRow, MeshMut, Move, PositionRow, Reply, RoomMut, VertexRow,
};

// Extrude of a face by a shift: the reply has the top face.
#[unsafe(no_mangle)]
pub extern "C" fn ul_face_extrude_shift(
    vertices: &mut [VertexRow],
    positions: &mut [PositionRow],
    arcs: &mut [ArcRow],
    edges: &mut [EdgeRow],
    faces: &mut [FaceRow],
    counters: &mut [u32; 3],
    v1: &mut [VertexRow],
    p1: &mut [PositionRow],
    a1: &mut [ArcRow],
    e1: &mut [EdgeRow],
    f1: &mut [FaceRow],
    v2: &mut [VertexRow],
    p2: &mut [PositionRow],
    a2: &mut [ArcRow],
    e2: &mut [EdgeRow],
    f2: &mut [FaceRow],
    face: u32,
    dx: f64,
    dy: f64,
    dz: f64,
) -> Reply
    ensures { shown result (mesh vertices.new positions.new arcs.new edges.new faces.new counters.new) (room v1.new p1.new a1.new e1.new f1.new) (room v2.new p2.new a2.new e2.new f2.new)
        ≡ replied
        (Calls.face_extrude (mesh vertices.old positions.old arcs.old edges.old faces.old counters.old) (room v1.old p1.old a1.old e1.old f1.old) (room v2.old p2.old a2.old e2.old f2.old) face
        (Shift dx dy dz)) }
{
    let by = Move::Shift(dx, dy, dz);
    let mut mesh = MeshMut {
        vertices,
        positions,
        arcs,
        edges,
        faces,
        counters,
    };
    let mut one = RoomMut {
        vertices: v1,
        positions: p1,
        arcs: a1,
        edges: e1,
        faces: f1,
    };
    let mut two = RoomMut {
        vertices: v2,
        positions: p2,
        arcs: a2,
        edges: e2,
        faces: f2,
    };
    changed(
        &mut mesh,
        &mut one,
        &mut two,
        Edit::FaceExtrude(face, by),
        &[],
    )
}

// Extrude of a face by a scale about a point: the reply has the top face.
#[unsafe(no_mangle)]
pub extern "C" fn ul_face_extrude_scale(
    vertices: &mut [VertexRow],
    positions: &mut [PositionRow],
    arcs: &mut [ArcRow],
    edges: &mut [EdgeRow],
    faces: &mut [FaceRow],
    counters: &mut [u32; 3],
    v1: &mut [VertexRow],
    p1: &mut [PositionRow],
    a1: &mut [ArcRow],
    e1: &mut [EdgeRow],
    f1: &mut [FaceRow],
    v2: &mut [VertexRow],
    p2: &mut [PositionRow],
    a2: &mut [ArcRow],
    e2: &mut [EdgeRow],
    f2: &mut [FaceRow],
    face: u32,
    ox: f64,
    oy: f64,
    oz: f64,
    factor: f64,
) -> Reply
    ensures { shown result (mesh vertices.new positions.new arcs.new edges.new faces.new counters.new) (room v1.new p1.new a1.new e1.new f1.new) (room v2.new p2.new a2.new e2.new f2.new)
        ≡ replied
        (Calls.face_extrude (mesh vertices.old positions.old arcs.old edges.old faces.old counters.old) (room v1.old p1.old a1.old e1.old f1.old) (room v2.old p2.old a2.old e2.old f2.old) face
        (Scale ox oy oz factor)) }
{
    let by = Move::Scale { ox, oy, oz, factor };
    let mut mesh = MeshMut {
        vertices,
        positions,
        arcs,
        edges,
        faces,
        counters,
    };
    let mut one = RoomMut {
        vertices: v1,
        positions: p1,
        arcs: a1,
        edges: e1,
        faces: f1,
    };
    let mut two = RoomMut {
        vertices: v2,
        positions: p2,
        arcs: a2,
        edges: e2,
        faces: f2,
    };
    changed(
        &mut mesh,
        &mut one,
        &mut two,
        Edit::FaceExtrude(face, by),
        &[],
    )
}

// Extrude of the arc (s,d) by a shift: the reply has the new arc.
#[unsafe(no_mangle)]
pub extern "C" fn ul_arc_extrude_shift(
    vertices: &mut [VertexRow],
    positions: &mut [PositionRow],
    arcs: &mut [ArcRow],
    edges: &mut [EdgeRow],
    faces: &mut [FaceRow],
    counters: &mut [u32; 3],
    v1: &mut [VertexRow],
    p1: &mut [PositionRow],
    a1: &mut [ArcRow],
    e1: &mut [EdgeRow],
    f1: &mut [FaceRow],
    v2: &mut [VertexRow],
    p2: &mut [PositionRow],
    a2: &mut [ArcRow],
    e2: &mut [EdgeRow],
    f2: &mut [FaceRow],
    s: u32,
    d: u32,
    dx: f64,
    dy: f64,
    dz: f64,
) -> Reply
    ensures { shown result (mesh vertices.new positions.new arcs.new edges.new faces.new counters.new) (room v1.new p1.new a1.new e1.new f1.new) (room v2.new p2.new a2.new e2.new f2.new)
        ≡ replied
        (Calls.arc_extrude (mesh vertices.old positions.old arcs.old edges.old faces.old counters.old) (room v1.old p1.old a1.old e1.old f1.old) (room v2.old p2.old a2.old e2.old f2.old) s d
        (Shift dx dy dz)) }
{
    let by = Move::Shift(dx, dy, dz);
    let mut mesh = MeshMut {
        vertices,
        positions,
        arcs,
        edges,
        faces,
        counters,
    };
    let mut one = RoomMut {
        vertices: v1,
        positions: p1,
        arcs: a1,
        edges: e1,
        faces: f1,
    };
    let mut two = RoomMut {
        vertices: v2,
        positions: p2,
        arcs: a2,
        edges: e2,
        faces: f2,
    };
    changed(
        &mut mesh,
        &mut one,
        &mut two,
        Edit::ArcExtrude(s, d, by),
        &[],
    )
}

// Extrude of the arc (s,d) by a scale about a point: the reply has the new arc.
#[unsafe(no_mangle)]
pub extern "C" fn ul_arc_extrude_scale(
    vertices: &mut [VertexRow],
    positions: &mut [PositionRow],
    arcs: &mut [ArcRow],
    edges: &mut [EdgeRow],
    faces: &mut [FaceRow],
    counters: &mut [u32; 3],
    v1: &mut [VertexRow],
    p1: &mut [PositionRow],
    a1: &mut [ArcRow],
    e1: &mut [EdgeRow],
    f1: &mut [FaceRow],
    v2: &mut [VertexRow],
    p2: &mut [PositionRow],
    a2: &mut [ArcRow],
    e2: &mut [EdgeRow],
    f2: &mut [FaceRow],
    s: u32,
    d: u32,
    ox: f64,
    oy: f64,
    oz: f64,
    factor: f64,
) -> Reply
    ensures { shown result (mesh vertices.new positions.new arcs.new edges.new faces.new counters.new) (room v1.new p1.new a1.new e1.new f1.new) (room v2.new p2.new a2.new e2.new f2.new)
        ≡ replied
        (Calls.arc_extrude (mesh vertices.old positions.old arcs.old edges.old faces.old counters.old) (room v1.old p1.old a1.old e1.old f1.old) (room v2.old p2.old a2.old e2.old f2.old) s d
        (Scale ox oy oz factor)) }
{
    let by = Move::Scale { ox, oy, oz, factor };
    let mut mesh = MeshMut {
        vertices,
        positions,
        arcs,
        edges,
        faces,
        counters,
    };
    let mut one = RoomMut {
        vertices: v1,
        positions: p1,
        arcs: a1,
        edges: e1,
        faces: f1,
    };
    let mut two = RoomMut {
        vertices: v2,
        positions: p2,
        arcs: a2,
        edges: e2,
        faces: f2,
    };
    changed(
        &mut mesh,
        &mut one,
        &mut two,
        Edit::ArcExtrude(s, d, by),
        &[],
    )
}
