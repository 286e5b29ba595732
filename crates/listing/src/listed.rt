// The lines of all records of a kind, in key order. A line takes at most 128 bytes.

ghost use Rattle.std.specs.Prelude.{◌≡◌, ◌+◌, ◌≤◌, length};
ghost use Rattle.rules.specs.Lent.{mesh_in};
ghost use Rattle.script.specs.Texts.{written, wrote};
ghost use Rattle.listing.specs.Lines.{Listable, line_of, kind_text};
ghost use Rattle.orders.specs.declared.kinds.Kind.TheVariants as K;

use crate::named;
use orders::{Kind, keys, sorted};
use rules::MeshRef;
use script::dumps;
use tables::{points, rows};

// The most rows of a table that is listed.
const ROWS: usize = 256;

// ---- one record

#[tactic(auto, unfolding(crate::specs::Lines::line_of, rules::specs::Records::vertex_record, script::specs::Dumps::vertex_text))]
fn vertex_line(mesh: MeshRef, x: u32, out: &mut [u8], at: usize) -> usize
    requires { at + 128 ≤ length out.old }
    ensures result_after { written out.new result ≡ wrote out.old at (line_of (mesh_in mesh.entry) K.Vertices x) }
    ensures short { result ≤ at + 128 }
{
    let key = keys::key(mesh.vertices, x);
    let position = points::position_at(mesh.positions, x);
    let leading = named::arc_name(mesh, rows::cell(mesh.vertices, x, 1));
    dumps::put_vertex(out, at, key, position, leading)
}

#[tactic(auto, unfolding(crate::specs::Lines::line_of, rules::specs::Records::arc_record, script::specs::Dumps::arc_text))]
fn arc_line(mesh: MeshRef, x: u32, out: &mut [u8], at: usize) -> usize
    requires { at + 128 ≤ length out.old }
    ensures result_after { written out.new result ≡ wrote out.old at (line_of (mesh_in mesh.entry) K.Arcs x) }
    ensures short { result ≤ at + 128 }
{
    let name = named::arc_name(mesh, x);
    let next = named::arc_name(mesh, rows::cell(mesh.arcs, x, 2));
    let previous = named::arc_name(mesh, rows::cell(mesh.arcs, x, 3));
    let face = named::key_name(mesh.faces, rows::cell(mesh.arcs, x, 4));
    let edge = named::key_name(mesh.edges, rows::cell(mesh.arcs, x, 5));
    dumps::put_arc(out, at, name, next, previous, face, edge)
}

#[tactic(auto, unfolding(crate::specs::Lines::line_of, rules::specs::Records::edge_record, script::specs::Dumps::edge_text))]
fn edge_line(mesh: MeshRef, x: u32, out: &mut [u8], at: usize) -> usize
    requires { at + 128 ≤ length out.old }
    ensures result_after { written out.new result ≡ wrote out.old at (line_of (mesh_in mesh.entry) K.Edges x) }
    ensures short { result ≤ at + 128 }
{
    let key = keys::key(mesh.edges, x);
    let arc = named::arc_name(mesh, rows::cell(mesh.edges, x, 1));
    dumps::put_edge(out, at, key, arc)
}

#[tactic(auto, unfolding(crate::specs::Lines::line_of, rules::specs::Records::face_record, script::specs::Dumps::face_text))]
fn face_line(mesh: MeshRef, x: u32, out: &mut [u8], at: usize) -> usize
    requires { at + 128 ≤ length out.old }
    ensures result_after { written out.new result ≡ wrote out.old at (line_of (mesh_in mesh.entry) K.Faces x) }
    ensures short { result ≤ at + 128 }
{
    let key = keys::key(mesh.faces, x);
    let arc = named::arc_name(mesh, rows::cell(mesh.faces, x, 1));
    dumps::put_face(out, at, key, arc, rows::cell(mesh.faces, x, 2))
}

// The record of a kind that a link names.
fn put_line(kind: Kind, mesh: MeshRef, x: u32, out: &mut [u8], at: usize) -> usize
    requires { at + 128 ≤ length out.old }
    ensures result_after { written out.new result ≡ wrote out.old at (line_of (mesh_in mesh.entry) kind x) }
    ensures short { result ≤ at + 128 }
{
    match kind {
        Kind::Vertices => vertex_line(mesh, x, out, at),
        Kind::Arcs => arc_line(mesh, x, out, at),
        Kind::Edges => edge_line(mesh, x, out, at),
        Kind::Faces => face_line(mesh, x, out, at),
    }
}

// ---- all of a kind

#[tactic(auto, using(crate::proofs::Lining::rows_few), unfolding(crate::specs::Lines::kind_text))]
pub fn put_records(kind: Kind, mesh: MeshRef, out: &mut [u8]) -> usize
    requires listable { Listable (mesh_in mesh) }
    requires in_bounds { 32768 ≤ length out.old }
    ensures result_after { written out.new result ≡ wrote out.old 0 (kind_text (mesh_in mesh.entry) kind) }
    ensures short { result ≤ length out.new }
{
    let mut links = [0; ROWS];
    let mut spare = [0; ROWS];
    let n = sorted::in_order(kind, mesh, &mut links, &mut spare);
    let mut at = 0;
    for x in &links[..n] {
        at = put_line(kind, mesh, u32::from(*x), out, at);
    }
    at
}
