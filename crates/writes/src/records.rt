// One record in lent bytes: "A vertex is 32 bytes (key, position, destination of its leading arc), an arc 24 (source, destination,
// destination of next, source of previous, face, edge), an edge 12 and a face 16 (key, source and destination of its arc; a face also
// its mark)".

ghost use mathlib.Core.Path.{◌≡◌};
ghost use Prim.Native.Nat.{◌+◌, ◌≤◌};
ghost use lib.ListN.{length};
ghost use Rattle.rules.specs.Lent.{mesh_in};
ghost use Rattle.file.specs.File.{total};
ghost use Rattle.orders.specs.declared.kinds.Kind.TheVariants as K;
ghost use Rattle.writes.specs.Writing.{put_text, record_text, widths_of};

use crate::{cells, words};
use orders::{Kind, keys};
use rules::MeshRef;
use tables::{points, rows};

// How many bytes a record takes.
#[tactic(auto, unfolding(file::specs::File::total, crate::specs::Writing::widths_of))]
pub fn size_of(kind: Kind) -> usize
    ensures value { result ≡ total (widths_of kind) }
    ensures small { result ≤ 32 }
{
    match kind {
        Kind::Vertices => 32,
        Kind::Arcs => 24,
        Kind::Edges => 12,
        Kind::Faces => 16,
    }
}

fn put_vertex(mesh: MeshRef, x: u32, out: &mut [u8], at: usize)
    requires { at + 32 ≤ length out.old }
    ensures { out.new ≡ put_text out.old at (record_text (mesh_in mesh.entry) K.Vertices x) }
{
    let key = keys::key(mesh.vertices, x);
    let p = points::position_at(mesh.positions, x);
    let (_, leading) = cells::ends(mesh, rows::cell(mesh.vertices, x, 1));
    words::put_word(out, at, key);
    words::put_long(out, at + 4, points::bits_of(p.x));
    words::put_long(out, at + 12, points::bits_of(p.y));
    words::put_long(out, at + 20, points::bits_of(p.z));
    words::put_word(out, at + 28, leading);
}

#[tactic(auto, unfolding(crate::specs::Writing::words_text, crate::specs::Writing::record_text, crate::specs::Writing::widths_of, crate::specs::Writing::cells_of, file::specs::File::row_text, file::specs::File::arc_cells, rules::specs::Records::arc_record))]
fn put_arc(mesh: MeshRef, x: u32, out: &mut [u8], at: usize)
    requires { at + 24 ≤ length out.old }
    ensures { out.new ≡ put_text out.old at (record_text (mesh_in mesh.entry) K.Arcs x) }
{
    let (source, destination) = cells::ends(mesh, x);
    let (_, next) = cells::ends(mesh, rows::cell(mesh.arcs, x, 2));
    let (previous, _) = cells::ends(mesh, rows::cell(mesh.arcs, x, 3));
    let face = cells::key_or_none(mesh.faces, rows::cell(mesh.arcs, x, 4));
    let edge = cells::key_or_none(mesh.edges, rows::cell(mesh.arcs, x, 5));
    let words = [source, destination, next, previous, face, edge];
    words::put_words(out, at, &words);
}

#[tactic(auto, unfolding(crate::specs::Writing::words_text, crate::specs::Writing::record_text, crate::specs::Writing::widths_of, crate::specs::Writing::cells_of, file::specs::File::row_text, file::specs::File::edge_cells, rules::specs::Records::edge_record))]
fn put_edge(mesh: MeshRef, x: u32, out: &mut [u8], at: usize)
    requires { at + 12 ≤ length out.old }
    ensures { out.new ≡ put_text out.old at (record_text (mesh_in mesh.entry) K.Edges x) }
{
    let key = keys::key(mesh.edges, x);
    let (source, destination) = cells::ends(mesh, rows::cell(mesh.edges, x, 1));
    let words = [key, source, destination];
    words::put_words(out, at, &words);
}

#[tactic(auto, unfolding(crate::specs::Writing::words_text, crate::specs::Writing::record_text, crate::specs::Writing::widths_of, crate::specs::Writing::cells_of, file::specs::File::row_text, file::specs::File::face_cells, rules::specs::Records::face_record))]
fn put_face(mesh: MeshRef, x: u32, out: &mut [u8], at: usize)
    requires { at + 16 ≤ length out.old }
    ensures { out.new ≡ put_text out.old at (record_text (mesh_in mesh.entry) K.Faces x) }
{
    let key = keys::key(mesh.faces, x);
    let (source, destination) = cells::ends(mesh, rows::cell(mesh.faces, x, 1));
    let mark = rows::cell(mesh.faces, x, 2);
    let words = [key, source, destination, mark];
    words::put_words(out, at, &words);
}

// The record of a kind that a link names.
#[tactic(auto, unfolding(file::specs::File::total, crate::specs::Writing::widths_of))]
pub fn put_record(kind: Kind, mesh: MeshRef, x: u32, out: &mut [u8], at: usize)
    requires { at + total (widths_of kind) ≤ length out.old }
    ensures { out.new ≡ put_text out.old at (record_text (mesh_in mesh.entry) kind x) }
{
    match kind {
        Kind::Vertices => put_vertex(mesh, x, out, at),
        Kind::Arcs => put_arc(mesh, x, out, at),
        Kind::Edges => put_edge(mesh, x, out, at),
        Kind::Faces => put_face(mesh, x, out, at),
    }
}
