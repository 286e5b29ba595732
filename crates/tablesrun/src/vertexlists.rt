// The search of a perimeter's lists for arcs that no face will hold, on the tables of one triangle and a vertex without arcs.

use crate::say;
use insert::search;
use insert::search::Sought;
use rules::{ArcRow, EdgeRow, FaceRow, MeshMut, MeshRef, PositionRow, VertexRow};
use std::io;
use tables::links;

pub fn run(rt: &impl Print) -> io::Result<()> {
    let mut vertices: [VertexRow; 4] = [[1, 1], [2, 3], [3, 5], [4, 0]];
    let mut positions: [PositionRow; 0] = [];
    let mut arcs: [ArcRow; 6] = [
        [1, 2, 3, 5, 1, 1],
        [2, 1, 6, 4, 0, 1],
        [2, 3, 5, 1, 1, 2],
        [3, 2, 2, 6, 0, 2],
        [3, 1, 1, 3, 1, 3],
        [1, 3, 4, 2, 0, 3],
    ];
    let mut edges: [EdgeRow; 3] = [[1, 1, 2], [2, 3, 4], [3, 5, 6]];
    let mut faces: [FaceRow; 0] = [];
    let mut counters: [u32; 3] = [0; 3];
    let mut mesh = MeshMut {
        vertices: &mut vertices,
        positions: &mut positions,
        arcs: &mut arcs,
        edges: &mut edges,
        faces: &mut faces,
        counters: &mut counters,
    };
    closed(rt, mesh.view())?;
    open(rt, &mut mesh)?;
    circle(rt, &mut mesh)
}

// Every list closes: with no arc soon to be held, with those of the outside, with one of another perimeter.
fn closed(rt: &impl Print, mesh: MeshRef) -> io::Result<()> {
    let own = [6, 4, 2];
    search(rt, mesh, &[1, 2, 3, 4], &[], &[])?;
    search(rt, mesh, &[1, 3, 2], &own, &[])?;
    search(rt, mesh, &[1, 2, 3, 4], &[], &[6])
}

// The list of vertex 1 ends behind its first arc, which has a face.
fn open(rt: &impl Print, mesh: &mut MeshMut) -> io::Result<()> {
    links::connect(mesh.arcs, 2, 0);
    say::title(rt, "no next of arc 2")?;
    search(rt, mesh.view(), &[1, 2, 3], &[], &[])
}

// The list of vertex 1 runs on to the arcs 4 and 5, and round these: with arc 4 free, then with a face on every arc.
fn circle(rt: &impl Print, mesh: &mut MeshMut) -> io::Result<()> {
    links::connect(mesh.arcs, 2, 4);
    say::title(rt, "arc 2 connected to arc 4")?;
    search(rt, mesh.view(), &[1, 2, 3], &[], &[])?;
    links::set_face(mesh.arcs, 2, 2);
    links::set_face(mesh.arcs, 4, 2);
    links::set_face(mesh.arcs, 6, 2);
    say::title(rt, "every arc with a face")?;
    search(rt, mesh.view(), &[1, 2, 3], &[], &[])
}

fn search(
    rt: &impl Print,
    mesh: MeshRef,
    per: &[u32],
    own: &[u32],
    other: &[u32],
) -> io::Result<()> {
    let around = lists::from_keys(per);
    let mine = lists::from_keys(own);
    let others = lists::from_keys(other);
    say::list(rt, "lists of vertices", around)?;
    say::list(rt, "soon held, its own", mine)?;
    say::list(rt, "soon held, others", others)?;
    found(rt, search::search_lists(mesh, around, mine, others))
}

fn found(rt: &impl Print, sought: Sought) -> io::Result<()> {
    say::list(rt, "first arcs not held", sought.outs)?;
    say::list(rt, "first opposites not held", sought.backs)
}
