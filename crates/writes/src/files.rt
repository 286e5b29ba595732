// The whole file, and the call that writes it: "Writing returns the length, or 1, then 7 if the lent bytes are too few; other bytes stay".

ghost use mathlib.Core.Path.{◌≡◌};
ghost use Prim.Native.Nat.{◌≤◌};
ghost use lib.ListN.{length};
ghost use Rattle.rules.specs.Lent.{mesh_in};
ghost use Rattle.file.specs.File.{write_file};
ghost use Rattle.writes.specs.Writing as W;

use crate::{Counts, bodies, words};
use orders::{Kind, sorted};
use rules::{MeshRef, Refusal};
use sound::queries;

// ---- the table of contents and the counters

// How many records each kind has.
#[tactic(auto, unfolding(crate::specs::Writing::counts_of))]
fn count_all(mesh: MeshRef) -> Counts
    requires { W.Small (mesh_in mesh) }
    ensures value { result ≡ W.counts_of (mesh_in mesh.entry) }
    ensures few { W.Few result }
{
    Counts {
        vertices: sorted::count_used(Kind::Vertices, mesh) as u32,
        arcs: sorted::count_used(Kind::Arcs, mesh) as u32,
        edges: sorted::count_used(Kind::Edges, mesh) as u32,
        faces: sorted::count_used(Kind::Faces, mesh) as u32,
    }
}

// "for vertices, arcs, edges, faces, in that order, a count and a byte offset, each u32 little-endian; then the three key counters".
#[tactic(auto, unfolding(crate::specs::Writing::head_text))]
fn put_head(counts: Counts, counters: &[u32; 3], out: &mut [u8])
    requires few { W.Few counts }
    requires in_bounds { 44 ≤ length out.old }
    ensures { out.new ≡ W.put_text out.old 0 (W.head_text counts counters.now) }
{
    let arcs_at = 44 + 32 * counts.vertices;
    let edges_at = arcs_at + 24 * counts.arcs;
    let faces_at = edges_at + 12 * counts.edges;
    let words = [
        counts.vertices,
        44,
        counts.arcs,
        arcs_at,
        counts.edges,
        edges_at,
        counts.faces,
        faces_at,
        counters[0],
        counters[1],
        counters[2],
    ];
    words::put_words(out, 0, &words);
}

// ---- the bodies

// "then the bodies back to back".
fn put_bodies(mesh: MeshRef, out: &mut [u8])
    requires small { W.Small (mesh_in mesh) }
    requires faces_in_bounds { W.length_of (W.counts_of (mesh_in mesh)) ≤ length out.old }
    ensures { out.new ≡ W.put_text out.old 44 (W.bodies_of (mesh_in mesh.entry)) }
{
    let arcs_at = bodies::put_body(Kind::Vertices, mesh, out, 44);
    let edges_at = bodies::put_body(Kind::Arcs, mesh, out, arcs_at);
    let faces_at = bodies::put_body(Kind::Edges, mesh, out, edges_at);
    bodies::put_body(Kind::Faces, mesh, out, faces_at);
}

// ---- the call

// The mesh as a file in the lent bytes, and its length; or a refusal, with no byte touched. A mesh that the check answers 3 is written.
pub fn write_mesh(mesh: MeshRef, out: &mut [u8]) -> Result<u32, Refusal>
    ensures { W.file_written result out.new ≡ write_file (mesh_in mesh.entry) out.old }
{
    if !queries::is_sound(mesh) {
        return Err(Refusal::Tables);
    }
    let counts = count_all(mesh);
    let length = 44
        + 32 * counts.vertices
        + 24 * counts.arcs
        + 12 * counts.edges
        + 16 * counts.faces;
    if out.len() < length as usize {
        return Err(Refusal::NoRoom);
    }
    put_head(counts, mesh.counters, out);
    put_bodies(mesh, out);
    Ok(length)
}
