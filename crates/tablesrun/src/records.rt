// New records from empty tables: each takes the lowest unused row and the next key, a freed row is used again, and a full table takes none.

use crate::{cells, say};
use edges::{edge, face, vertex};
use rules::{ArcRow, EdgeRow, FaceRow, MeshMut, MeshRef, Position, PositionRow, VertexRow};
use std::io;
use tables::rows;

pub fn run(rt: &impl Print) -> io::Result<()> {
    edged(rt)?;
    faced(rt)
}

fn edged(rt: &impl Print) -> io::Result<()> {
    let mut vertices: [VertexRow; 3] = [[0; 2]; 3];
    let mut positions: [PositionRow; 3] = [[0.0; 3]; 3];
    let mut arcs: [ArcRow; 6] = [[0; 6]; 6];
    let mut edges: [EdgeRow; 3] = [[0; 3]; 3];
    let mut faces: [FaceRow; 0] = [];
    let mut counters: [u32; 3] = [0; 3];
    let mut mesh = MeshMut {
        vertices: &mut vertices,
        positions: &mut positions,
        arcs: &mut arcs,
        edges: &mut edges,
        faces: &mut faces,
        counters: &mut counters,
    };
    say::title(
        rt,
        "four vertices into a table of three, then the edges of a triangle",
    )?;
    corners(rt, &mut mesh)?;
    seams(&mut mesh);
    seams_shown(rt, mesh.view())?;
    say::number(rt, "next vertex key", mesh.counters[0])?;
    say::number(rt, "next edge key", mesh.counters[1])
}

// The arcs 1, 2 and 3 go round the face in row 1.
fn faced(rt: &impl Print) -> io::Result<()> {
    let mut vertices: [VertexRow; 0] = [];
    let mut positions: [PositionRow; 0] = [];
    let mut arcs: [ArcRow; 3] = [[1, 2, 2, 3, 1, 1], [2, 3, 3, 1, 1, 2], [3, 1, 1, 2, 1, 3]];
    let mut edges: [EdgeRow; 0] = [];
    let mut faces: [FaceRow; 2] = [[0; 3]; 2];
    let mut counters: [u32; 3] = [0; 3];
    let mut mesh = MeshMut {
        vertices: &mut vertices,
        positions: &mut positions,
        arcs: &mut arcs,
        edges: &mut edges,
        faces: &mut faces,
        counters: &mut counters,
    };
    say::title(rt, "three faces into a table of two")?;
    panel(rt, &mut mesh, 10)?;
    panel(rt, &mut mesh, 20)?;
    panel(rt, &mut mesh, 30)?;
    taken_out(rt, &mut mesh)?;
    panel(rt, &mut mesh, 40)?;
    cells::mark(rt, mesh.faces, 1)?;
    say::number(rt, "next face key", mesh.counters[2])
}

fn corners(rt: &impl Print, mesh: &mut MeshMut) -> io::Result<()> {
    for x in [1.0, 2.0, 3.0, 4.0] {
        corner(rt, mesh, x)?;
    }
    Ok(())
}

fn corner(rt: &impl Print, mesh: &mut MeshMut, x: f64) -> io::Result<()> {
    let row = vertex::new_vertex(mesh, 0, Position { x, y: 0.0, z: 0.0 });
    say::number(rt, "new vertex in row", row)
}

// The edges of a triangle. The first is asked for once more, and is there.
fn seams(mesh: &mut MeshMut) {
    edge::new_edge(mesh, 1, 2);
    edge::new_edge(mesh, 2, 3);
    edge::get_or_insert_edge(mesh, 3, 1);
    edge::get_or_insert_edge(mesh, 2, 1);
}

fn seams_shown(rt: &impl Print, mesh: MeshRef) -> io::Result<()> {
    cells::arc_by_ends(rt, mesh.arcs, 1, 2)?;
    cells::arc_by_ends(rt, mesh.arcs, 2, 1)?;
    cells::arc_by_ends(rt, mesh.arcs, 1, 3)?;
    cells::edge_by_key(rt, mesh.edges, 2)?;
    cells::edge_arc(rt, mesh.edges, 3)?;
    cells::leading(rt, mesh.vertices, 1)?;
    say::number(rt, "unused edges", rows::count_free(mesh.edges))
}

fn panel(rt: &impl Print, mesh: &mut MeshMut, mark: u32) -> io::Result<()> {
    let row = face::new_face(mesh, 0, 1, mark);
    say::number(rt, "new face in row", row)
}

fn taken_out(rt: &impl Print, mesh: &mut MeshMut) -> io::Result<()> {
    cells::face(rt, mesh.arcs, 3)?;
    say::title(rt, "face 1 is removed")?;
    face::remove_face(mesh, 1);
    cells::face(rt, mesh.arcs, 3)?;
    cells::next(rt, mesh.arcs, 3)?;
    cells::lowest_face(rt, mesh.faces)
}
