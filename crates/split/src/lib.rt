// Split. Document 01's rule 6: "Left runs s to d, right d to s; both are checked after removal, left is put in first. The answer is arc
// (s,d). Both marks are 0." The lists of both halves are searched after the removal, before the left half is in;
// so is one list made of the arcs near them, for the checks and the edges of both.

#![tactic(auto)]

ghost use Rattle.std.specs.Prelude.{◌≡◌};
ghost use Rattle.rules.specs.Mesh.{list_of};
ghost use Rattle.rules.specs.Lent.{mesh_in, mesh_of, SameMesh, allowed, answered};
ghost use Rattle.rules.specs.Step.{step};
ghost use Rattle.rules.specs.Insert.{insert_checks};
ghost use Rattle.pairs.specs.Near.{Near};
ghost use Rattle.makers.specs.Makers.{searching, split_work_by};
ghost use Rattle.edits.specs.Each.{both_in};
ghost use Rattle.edits.specs.Known.{Known};

use checks::split;
use edits::near::Around;
use edits::{near, pieces};
use insert::{face, search};
use rules::{Links, MeshMut, MeshRef, Refusal, Told};

// Both halves put in, left first. What the exteriors ask of the lists is searched for before either is in: of the left half's where its own arcs will
// be held, of the right half's where the left's will be too.
fn halves_in(mesh: &mut MeshMut, around: &Around, left: Links, right: Links)
    requires { Known (mesh_of mesh.old) around.now }
    ensures faces { mesh_of mesh.new ≡ both_in (mesh_of mesh.old) (list_of left) (list_of right) }
    ensures same { SameMesh mesh.old mesh.new }
{
    lists::known_few(left);
    lists::known_few(right);
    let view = mesh.view();
    let first = around.near.perimeter_arcs(view.arcs, left);
    let second = around.near.perimeter_arcs(view.arcs, right);
    let none = search::none();
    let ours = search::search_lists(view, left, first, none);
    let theirs = search::search_lists(view, right, second, first);
    face::put_face_sought(mesh, ours, left, first, around.from, 0);
    let again = around.near.perimeter_arcs(mesh.view().arcs, right);
    face::put_face_sought(mesh, theirs, right, again, around.from, 0);
}

// The checks of a half, whose arcs are looked up in the list.
fn half_checks(mesh: MeshRef, around: &Around, half: Links) -> Result<(), Refusal>
    requires { Near mesh.arcs.now around.now.near }
    ensures { allowed result ≡ insert_checks (mesh_in mesh.entry) (list_of half) (list_of half) }
{
    lists::known_few(half);
    let found = around.near.perimeter_arcs(mesh.arcs, half);
    checks::insert::insert_checks_by(mesh.positions, mesh.arcs, found, half, half)
}

pub fn split_work(mesh: &mut MeshMut, f: u32, s: u32, d: u32) -> Result<Told, Refusal>
    ensures told { step (mesh_of mesh.new) (answered result) ≡ split_work_by searching (mesh_of mesh.old) f s d }
    ensures same { SameMesh mesh.old mesh.new }
{
    let whole = mesh.view();
    let left = split::half(whole.arcs, whole.faces, f, s, d);
    let right = split::half(whole.arcs, whole.faces, f, d, s);
    let from = pieces::key_at(whole.vertices, s);
    let to = pieces::key_at(whole.vertices, d);
    edges::face::remove_face(mesh, f);
    let open = mesh.view();
    let around = near::near_edit(open, left, right, 1);
    half_checks(open, &around, left)?;
    half_checks(open, &around, right)?;
    halves_in(mesh, &around, left, right);
    Ok(Told::Arc(from, to))
}
