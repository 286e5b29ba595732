// The row of a record: its key plus one, and the links of what it names. Request L3: "key, position, destination of its leading arc", "source, destination,
// destination of next, source of previous, face, edge", "key, source and destination of its arc; a face also its mark".

ghost use mathlib.Core.Path.{◌≡◌};
ghost use mathlib.Core.List.{[]};
ghost use Prim.Native.Nat.{◌<◌};
ghost use lib.ListN.{length, get_or};
ghost use Rattle.file.specs.File.{contents_in, by_key, by_ends, unless_none, vertex_row, position_row, arc_row, edge_row, face_row};
ghost use Rattle.bodies.specs.Bodies.{records_in};

use crate::cells;
use crate::holding::{self, StorableFile};
use bodies::kinds::Kind;
use bodies::records::WholeFile;
use bodies::search;
use rules::{ArcRow, EdgeRow, FaceRow, PositionRow, VertexRow};

// The link of the arc with those ends. It is looked for near the leading arc of its source, which the vertices tell where they are filled already; what they
// hold decides how soon it is found, not what is.
fn arc_near(whole: WholeFile, vertices: &[VertexRow], source: u32, destination: u32) -> u32
    ensures { result ≡ by_ends (contents_in whole.entry.file.text.now) source destination }
{
    let row = search::by_key(whole, Kind::Vertices, source);
    let leading = tables::rows::cell(vertices, row, 1);
    search::by_ends(whole, source, destination, tables::rows::wide(leading))
}

// Its leading arc is looked for at a guess first.
pub fn vertex_row(file: StorableFile, i: usize, guess: usize) -> VertexRow
    requires { i < length (records_in file.whole.file.text.now 0) }
    ensures { result ≡ vertex_row (contents_in file.entry.whole.file.text.now) (get_or (records_in file.entry.whole.file.text.now 0) i []) }
{
    let whole = file.whole;
    let key = cells::cell(whole.file, Kind::Vertices, i, 0);
    let end = cells::cell(whole.file, Kind::Vertices, i, 4);
    let leading = match cells::name_in(end) {
        Some(end) => search::by_ends(whole, key, end, guess),
        None => 0,
    };
    [key + 1, leading]
}

pub fn position_row(file: StorableFile, i: usize) -> PositionRow
    requires { i < length (records_in file.whole.file.text.now 0) }
    ensures { result ≡ position_row (get_or (records_in file.entry.whole.file.text.now 0) i []) }
{
    let laid = file.whole.file;
    let x = holding::float_of(cells::bits(laid, i, 0));
    let y = holding::float_of(cells::bits(laid, i, 1));
    let z = holding::float_of(cells::bits(laid, i, 2));
    [x, y, z]
}

// Next of (a,b) leaves b, previous arrives at a.
pub fn arc_row(file: StorableFile, vertices: &[VertexRow], i: usize) -> ArcRow
    requires { i < length (records_in file.whole.file.text.now 1) }
    ensures { result ≡ arc_row (contents_in file.entry.whole.file.text.now) (get_or (records_in file.entry.whole.file.text.now 1) i []) }
{
    let whole = file.whole;
    let a = cells::cell(whole.file, Kind::Arcs, i, 0);
    let b = cells::cell(whole.file, Kind::Arcs, i, 1);
    let after = cells::cell(whole.file, Kind::Arcs, i, 2);
    let prior = cells::cell(whole.file, Kind::Arcs, i, 3);
    let face = cells::cell(whole.file, Kind::Arcs, i, 4);
    let edge = cells::cell(whole.file, Kind::Arcs, i, 5);
    let next = match cells::name_in(after) {
        Some(end) => arc_near(whole, vertices, b, end),
        None => 0,
    };
    let previous = match cells::name_in(prior) {
        Some(start) => arc_near(whole, vertices, start, a),
        None => 0,
    };
    let bounds = match cells::name_in(face) {
        Some(key) => search::by_key(whole, Kind::Faces, key),
        None => 0,
    };
    [
        search::by_key(whole, Kind::Vertices, a),
        search::by_key(whole, Kind::Vertices, b),
        next,
        previous,
        bounds,
        search::by_key(whole, Kind::Edges, edge),
    ]
}

pub fn edge_row(file: StorableFile, vertices: &[VertexRow], i: usize) -> EdgeRow
    requires { i < length (records_in file.whole.file.text.now 2) }
    ensures { result ≡ edge_row (contents_in file.entry.whole.file.text.now) (get_or (records_in file.entry.whole.file.text.now 2) i []) }
{
    let whole = file.whole;
    let key = cells::cell(whole.file, Kind::Edges, i, 0);
    let a = cells::cell(whole.file, Kind::Edges, i, 1);
    let b = cells::cell(whole.file, Kind::Edges, i, 2);
    [
        key + 1,
        arc_near(whole, vertices, a, b),
        arc_near(whole, vertices, b, a),
    ]
}

pub fn face_row(file: StorableFile, vertices: &[VertexRow], i: usize) -> FaceRow
    requires { i < length (records_in file.whole.file.text.now 3) }
    ensures { result ≡ face_row (contents_in file.entry.whole.file.text.now) (get_or (records_in file.entry.whole.file.text.now 3) i []) }
{
    let whole = file.whole;
    let key = cells::cell(whole.file, Kind::Faces, i, 0);
    let a = cells::cell(whole.file, Kind::Faces, i, 1);
    let b = cells::cell(whole.file, Kind::Faces, i, 2);
    let mark = cells::cell(whole.file, Kind::Faces, i, 3);
    [key + 1, arc_near(whole, vertices, a, b), mark]
}
