// A set of five tables measured, copied into a room that has a row more in each, and the room zeroed. The room's own rows hold 9.

use crate::{cells, say};
use rules::{ArcRow, EdgeRow, FaceRow, MeshRef, PositionRow, RoomMut, VertexRow};
use std::io;
use tables::{points, sets};

pub fn run(rt: &impl Print) -> io::Result<()> {
    let vertices: [VertexRow; 2] = [[1, 1], [2, 2]];
    let positions: [PositionRow; 2] = [[1.0, 2.0, 3.0], [4.0, 5.0, 6.0]];
    let arcs: [ArcRow; 2] = [[1, 2, 2, 2, 0, 1], [2, 1, 1, 1, 0, 1]];
    let edges: [EdgeRow; 1] = [[1, 1, 2]];
    let faces: [FaceRow; 1] = [[1, 1, 7]];
    let mesh = MeshRef {
        vertices: &vertices,
        positions: &positions,
        arcs: &arcs,
        edges: &edges,
        faces: &faces,
        counters: &[2, 1, 1],
    };
    sizes(rt, mesh)?;
    room(rt, mesh)
}

// A room of the mesh's own size is enough, one with no row for a face is not; a mesh with one arc for its edge is outside the limits.
fn sizes(rt: &impl Print, mesh: MeshRef) -> io::Result<()> {
    say::title(rt, "a set of 2 vertices, 2 arcs, an edge and a face")?;
    let onearc: [ArcRow; 1] = [[1, 2, 0, 0, 0, 1]];
    let broken = MeshRef {
        arcs: &onearc,
        ..mesh
    };
    say::answer(rt, "within the limits", sets::within_limits(mesh))?;
    say::answer(
        rt,
        "with one arc within the limits",
        sets::within_limits(broken),
    )?;
    let mut v: [VertexRow; 2] = [[0; 2]; 2];
    let mut p: [PositionRow; 2] = [[0.0; 3]; 2];
    let mut a: [ArcRow; 2] = [[0; 6]; 2];
    let mut e: [EdgeRow; 1] = [[0; 3]];
    let mut f: [FaceRow; 1] = [[0; 3]];
    let same = RoomMut {
        vertices: &mut v,
        positions: &mut p,
        arcs: &mut a,
        edges: &mut e,
        faces: &mut f,
    };
    say::answer(
        rt,
        "room of the same size enough",
        sets::room_enough(mesh, same.view()),
    )?;
    let mut nofaces: [FaceRow; 0] = [];
    let small = RoomMut {
        faces: &mut nofaces,
        ..same
    };
    say::answer(
        rt,
        "room with no faces enough",
        sets::room_enough(mesh, small.view()),
    )
}

fn room(rt: &impl Print, mesh: MeshRef) -> io::Result<()> {
    say::title(
        rt,
        "the set copied into a room of nines with a row more, then zeroed",
    )?;
    let mut v: [VertexRow; 3] = [[9; 2]; 3];
    let mut p: [PositionRow; 3] = [[9.0; 3]; 3];
    let mut a: [ArcRow; 4] = [[9; 6]; 4];
    let mut e: [EdgeRow; 2] = [[9; 3]; 2];
    let mut f: [FaceRow; 2] = [[9; 3]; 2];
    let mut room = RoomMut {
        vertices: &mut v,
        positions: &mut p,
        arcs: &mut a,
        edges: &mut e,
        faces: &mut f,
    };
    sets::copy_set(&mut room, mesh);
    shown(rt, &room)?;
    sets::zero_set(&mut room);
    shown(rt, &room)
}

// The last row of the mesh and the row past it, of each table.
fn shown(rt: &impl Print, room: &RoomMut) -> io::Result<()> {
    cells::leading(rt, room.vertices, 2)?;
    cells::leading(rt, room.vertices, 3)?;
    coordinate(rt, room.positions, 2)?;
    coordinate(rt, room.positions, 3)?;
    cells::source(rt, room.arcs, 2)?;
    cells::source(rt, room.arcs, 3)?;
    cells::edge_arc(rt, room.edges, 1)?;
    cells::edge_arc(rt, room.edges, 2)?;
    cells::mark(rt, room.faces, 1)?;
    cells::mark(rt, room.faces, 2)
}

fn coordinate(rt: &impl Print, p: &[PositionRow], v: u32) -> io::Result<()> {
    let at = points::position_at(p, v);
    print!(rt; "x of vertex {v}")?;
    say::bits(rt, "", at.x)
}
