// All of "Sound means" in one answer, and the two queries: check_mesh, face_arity. They change nothing and need no room.
// It carries document 01's answers 1 ("a table is unsound or over the limit"), 3 of a vertex without a leading arc and 4 of an unknown face,
// and document 02's one check in place of two.

ghost use Rattle.std.specs.Prelude.{◌≡◌, not, ℕ, length};
ghost use Rattle.rules.specs.Table.{every};
ghost use Rattle.rules.specs.Mesh.{Mesh, face_arc};
ghost use Rattle.rules.specs.Lent.{mesh_in, allowed, answer_by};
ghost use Rattle.rules.specs.Answer.{Arity};
ghost use Rattle.rules.specs.Link as Link;
ghost use Rattle.rules.specs.Sound.{sound};
ghost use Rattle.rules.specs.Call.{check_mesh, face_arity, leadless};

use crate::{faces, keys, passes};
use names::ROWS;
use rules::{ArcRow, MeshRef, Refusal, VertexRow};
use tables::{rows, sets};
use walks::rings;

// ---- soundness

// Whether the tables are sound: sizes and rows first, on which the rest stands.
// Kept: each pass gives the next what it counted, so that one expression of tests can't hold it.
pub fn is_sound(mesh: MeshRef) -> bool
    ensures { result ≡ sound (mesh_in mesh.entry) }
{
    if !sets::within_limits(mesh) {
        return false;
    }
    let Some(vertex_keys) = passes::vertices_sound(mesh) else {
        return false;
    };
    if !passes::positions_sound(mesh) {
        return false;
    }
    let mut names = [0u32; ROWS];
    let Some(named) = passes::edges_named(&mut names, mesh) else {
        return false;
    };
    let Some(held) = passes::arcs_held(mesh, named.there * 2) else {
        return false;
    };
    let Some(face_keys) = faces::rings_sound(mesh, held) else {
        return false;
    };
    if !names::names_differ(&names, mesh.edges.len()) {
        return false;
    }
    let ordered = keys::Ordered {
        vertices: vertex_keys.so,
        edges: named.keys.so,
        faces: face_keys.so,
    };
    keys::keys_differ(&mut names, mesh, ordered)
}

// ---- the queries

// Whether a row is no vertex without a leading arc.
fn leads(row: VertexRow) -> bool
    ensures { result ≡ not (leadless row) }
{
    row[0] == 0 || row[1] != 0
}

fn all_lead(vertices: &[VertexRow]) -> bool
    ensures { result ≡ every (λ x. not (leadless x)) vertices.now }
{
    vertices.iter().all(|row| leads(*row))
}

// 1 for unsound tables, or 3 if some vertex has no leading arc, or done, in that order.
pub fn check_mesh(mesh: MeshRef) -> Result<(), Refusal>
    ensures { allowed result ≡ check_mesh (mesh_in mesh.entry) }
{
    if !is_sound(mesh) {
        return Err(Refusal::Tables);
    }
    if !all_lead(mesh.vertices) {
        return Err(Refusal::TopologyMalformed);
    }
    Ok(())
}

// How many arcs the ring from an arc has, as a number of an answer.
fn arity_from(arcs: &[ArcRow], first: u32) -> u32
    ensures { (m : Mesh) (f : ℕ) → m.arcs ≡ arcs.now → face_arc m f ≡ first → result ≡ length (Link.ring m f) }
{
    rings::ring(arcs, first).links.len as u32
}

// 1 for unsound tables, 4 for a key that no face has, else the length of its ring.
pub fn face_arity(mesh: MeshRef, face: u32) -> Result<u32, Refusal>
    ensures { answer_by Arity result ≡ face_arity (mesh_in mesh.entry) face }
{
    if !is_sound(mesh) {
        return Err(Refusal::Tables);
    }
    let f = rows::find_key(mesh.faces, face);
    if f == 0 {
        return Err(Refusal::TopologyNotFound);
    }
    Ok(arity_from(mesh.arcs, rows::cell(mesh.faces, f, 1)))
}
