// Leaves of tables for a C program to time (bench/tables.c): a search of all arcs, a copy of a set, a set made zero. Each is the leaf
// itself under a C name, with the leaf's own contract.

#![tactic(auto)]

ghost use Rattle.std.specs.Prelude.{◌≡◌};
ghost use Rattle.rules.specs.Mesh.{arc_between, room};
ghost use Rattle.rules.specs.Call.{zeroed};
ghost use Rattle.tables.specs.Sets.{set_over};

use rules::{ArcRow, EdgeRow, FaceRow, MeshRef, PositionRow, RoomMut, VertexRow};

// The arc from the vertex a to the vertex b, by their links, or 0.
#[unsafe(no_mangle)]
pub extern "C" fn tablebench_find_arc(arcs: &[ArcRow], a: u32, b: u32) -> u32
    ensures { result ≡ arc_between arcs.now a b }
{
    tables::rows::find_arc(arcs, a, b)
}

// Each table of a set over the table of its kind.
#[unsafe(no_mangle)]
pub extern "C" fn tablebench_copy_set(
    vertices: &mut [VertexRow],
    positions: &mut [PositionRow],
    arcs: &mut [ArcRow],
    edges: &mut [EdgeRow],
    faces: &mut [FaceRow],
    from_vertices: &[VertexRow],
    from_positions: &[PositionRow],
    from_arcs: &[ArcRow],
    from_edges: &[EdgeRow],
    from_faces: &[FaceRow],
)
    ensures { room vertices.new positions.new arcs.new edges.new faces.new
        ≡ set_over (room from_vertices.now from_positions.now from_arcs.now from_edges.now from_faces.now)
        (room vertices.old positions.old arcs.old edges.old faces.old) }
{
    let mut room = RoomMut {
        vertices,
        positions,
        arcs,
        edges,
        faces,
    };
    let mesh = MeshRef {
        vertices: from_vertices,
        positions: from_positions,
        arcs: from_arcs,
        edges: from_edges,
        faces: from_faces,
        counters: &[0; 3],
    };
    tables::sets::copy_set(&mut room, mesh);
}

// Every row of every table becomes zero.
#[unsafe(no_mangle)]
pub extern "C" fn tablebench_zero_set(
    vertices: &mut [VertexRow],
    positions: &mut [PositionRow],
    arcs: &mut [ArcRow],
    edges: &mut [EdgeRow],
    faces: &mut [FaceRow],
)
    ensures { room vertices.new positions.new arcs.new edges.new faces.new ≡ zeroed (room vertices.old positions.old arcs.old edges.old faces.old) }
{
    let mut room = RoomMut {
        vertices,
        positions,
        arcs,
        edges,
        faces,
    };
    tables::sets::zero_set(&mut room);
}
