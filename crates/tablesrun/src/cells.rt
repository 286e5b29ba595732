// One line for one cell of a table, or for one lookup in it.

use crate::say;
use edges::free;
use rules::{ArcRow, EdgeRow, VertexRow};
use std::io;
use tables::rows;

pub fn source(rt: &impl Print, arcs: &[ArcRow], x: u32) -> io::Result<()> {
    say::number_of(rt, "source of arc ", x, rows::cell(arcs, x, 0))
}

pub fn next(rt: &impl Print, arcs: &[ArcRow], x: u32) -> io::Result<()> {
    say::number_of(rt, "next of arc ", x, rows::cell(arcs, x, 2))
}

pub fn previous(rt: &impl Print, arcs: &[ArcRow], x: u32) -> io::Result<()> {
    say::number_of(rt, "previous of arc ", x, rows::cell(arcs, x, 3))
}

pub fn face(rt: &impl Print, arcs: &[ArcRow], x: u32) -> io::Result<()> {
    say::number_of(rt, "face of arc ", x, rows::cell(arcs, x, 4))
}

pub fn leading(rt: &impl Print, vertices: &[VertexRow], v: u32) -> io::Result<()> {
    say::number_of(rt, "leading arc of vertex ", v, rows::cell(vertices, v, 1))
}

pub fn edge_arc(rt: &impl Print, edges: &[EdgeRow], e: u32) -> io::Result<()> {
    say::number_of(rt, "arc named by edge ", e, rows::cell(edges, e, 1))
}

pub fn mark(rt: &impl Print, faces: &[EdgeRow], f: u32) -> io::Result<()> {
    say::number_of(rt, "mark of face ", f, rows::cell(faces, f, 2))
}

pub fn vertex_by_key(rt: &impl Print, vertices: &[VertexRow], key: u32) -> io::Result<()> {
    say::number_of(rt, "vertex with key ", key, rows::find_key(vertices, key))
}

pub fn edge_by_key(rt: &impl Print, edges: &[EdgeRow], key: u32) -> io::Result<()> {
    say::number_of(rt, "edge with key ", key, rows::find_key(edges, key))
}

pub fn arc_by_ends(rt: &impl Print, arcs: &[ArcRow], a: u32, b: u32) -> io::Result<()> {
    print!(rt; "arc from {a}")?;
    say::number_of(rt, " to ", b, rows::find_arc(arcs, a, b))
}

pub fn opposite(rt: &impl Print, arcs: &[ArcRow], edges: &[EdgeRow], x: u32) -> io::Result<()> {
    say::number_of(rt, "opposite of arc ", x, rows::opposite(arcs, edges, x))
}

pub fn lowest_vertex(rt: &impl Print, vertices: &[VertexRow]) -> io::Result<()> {
    say::number(rt, "lowest unused vertex", free::free_row(vertices, 0))
}

pub fn lowest_arc(rt: &impl Print, arcs: &[ArcRow]) -> io::Result<()> {
    say::number(rt, "lowest unused arc", free::free_row(arcs, 0))
}

pub fn lowest_face(rt: &impl Print, faces: &[EdgeRow]) -> io::Result<()> {
    say::number(rt, "lowest unused face", free::free_row(faces, 0))
}
