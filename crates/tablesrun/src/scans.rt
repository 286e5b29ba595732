// Cells, lookups, counts and links, on the tables of one triangle: the arcs 1, 3 and 5 go round its face, and 2, 6 and 4 round outside.

use crate::{cells, say};
use rules::{ArcRow, EdgeRow, VertexRow};
use std::io;
use tables::{links, rows};

pub fn run(rt: &impl Print) -> io::Result<()> {
    on_arcs(rt)?;
    on_vertices(rt)
}

fn on_arcs(rt: &impl Print) -> io::Result<()> {
    let mut arcs: [ArcRow; 7] = [
        [1, 2, 3, 5, 1, 1],
        [2, 1, 6, 4, 0, 1],
        [2, 3, 5, 1, 1, 2],
        [3, 2, 2, 6, 0, 2],
        [3, 1, 1, 3, 1, 3],
        [1, 3, 4, 2, 0, 3],
        [0, 0, 0, 0, 0, 0],
    ];
    let edges: [EdgeRow; 3] = [[1, 1, 2], [2, 3, 4], [3, 5, 6]];
    say::title(rt, "seven arcs of a triangle, the last unused")?;
    read(rt, &arcs)?;
    by_ends(rt, &arcs, &edges)?;
    nowhere(rt, &mut arcs)?;
    joined(rt, &mut arcs)
}

// Through none and past the table there is 0.
fn read(rt: &impl Print, arcs: &[ArcRow]) -> io::Result<()> {
    cells::next(rt, arcs, 1)?;
    cells::next(rt, arcs, 0)?;
    cells::next(rt, arcs, 8)?;
    cells::next(rt, arcs, 4294967295)?;
    say::number(rt, "cell 6 of arc 1", rows::cell(arcs, 1, 6))?;
    cells::lowest_arc(rt, arcs)?;
    say::number(rt, "used arcs", rows::count_used(arcs))
}

fn by_ends(rt: &impl Print, arcs: &[ArcRow], edges: &[EdgeRow]) -> io::Result<()> {
    cells::arc_by_ends(rt, arcs, 3, 1)?;
    cells::arc_by_ends(rt, arcs, 1, 3)?;
    cells::arc_by_ends(rt, arcs, 1, 4)?;
    cells::arc_by_ends(rt, arcs, 0, 0)?;
    cells::opposite(rt, arcs, edges, 5)?;
    cells::opposite(rt, arcs, edges, 6)?;
    cells::edge_by_key(rt, edges, 2)?;
    cells::edge_by_key(rt, edges, 3)
}

// Through none and past the table nothing is written.
fn nowhere(rt: &impl Print, arcs: &mut [ArcRow]) -> io::Result<()> {
    say::title(rt, "9 written as next through none, and past the table")?;
    rows::put(arcs, 0, 2, 9);
    rows::put(arcs, 8, 2, 9);
    cells::next(rt, arcs, 1)?;
    cells::next(rt, arcs, 7)
}

fn joined(rt: &impl Print, arcs: &mut [ArcRow]) -> io::Result<()> {
    say::title(
        rt,
        "arc 1 connected to arc 6, then the face of arc 6 set to 4 and cleared",
    )?;
    links::connect(arcs, 1, 6);
    cells::next(rt, arcs, 1)?;
    cells::previous(rt, arcs, 6)?;
    links::set_face(arcs, 6, 4);
    cells::face(rt, arcs, 6)?;
    links::set_face(arcs, 6, 0);
    cells::face(rt, arcs, 6)
}

// Key 0 is in its likely row, 1 and 4 are in other rows, 3 and the last number are unknown.
fn on_vertices(rt: &impl Print) -> io::Result<()> {
    let vertices: [VertexRow; 5] = [[1, 1], [5, 3], [3, 5], [0, 0], [2, 0]];
    say::title(rt, "five vertices with the keys 0, 4, 2, none and 1")?;
    by_key(rt, &vertices)
}

fn by_key(rt: &impl Print, vertices: &[VertexRow]) -> io::Result<()> {
    cells::vertex_by_key(rt, vertices, 0)?;
    cells::vertex_by_key(rt, vertices, 1)?;
    cells::vertex_by_key(rt, vertices, 4)?;
    cells::vertex_by_key(rt, vertices, 3)?;
    cells::vertex_by_key(rt, vertices, 4294967295)?;
    cells::lowest_vertex(rt, vertices)?;
    say::number(rt, "unused vertices", rows::count_free(vertices))
}
