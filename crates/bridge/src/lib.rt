// Bridge. Document 01's rule 9: "Remove both; pair source arcs in order with destination arcs reversed; arc bridge each pair; the answer is
// key 0."

#![tactic(auto)]

ghost use Rattle.std.specs.Prelude.{◌≡◌, reverse, length, get_or};
ghost use Rattle.rules.specs.Mesh.{list_of};
ghost use Rattle.rules.specs.Lent.{mesh_of, SameMesh, allowed, answered};
ghost use Rattle.rules.specs.Step.{step};
ghost use Rattle.makers.specs.Makers.{searching, arc_bridge_by, bridge_work_by};
ghost use Rattle.edits.specs.Each.{each_in};
ghost use Rattle.edits.specs.Known.{Known};

use checks::rings;
use edges::face;
use edits::near::Around;
use edits::{arc, near, pieces};
use rules::{Links, MeshMut, Refusal, Told};

// Each source arc with its destination arc, counted from the end: done, or the first refusal.
fn pairs_in(mesh: &mut MeshMut, around: &Around, forth: Links, back: Links) -> Result<(), Refusal>
    requires { Known (mesh_of mesh.old) around.now }
    ensures pairs { step (mesh_of mesh.new) (allowed result)
        ≡ each_in (λ i a. arc_bridge_by searching a (get_or (list_of forth) i 0) (get_or (reverse (list_of back)) i 0)) (length (list_of forth))
        (mesh_of mesh.old) }
    ensures same { SameMesh mesh.old mesh.new }
{
    for i in 0..lists::size(forth) {
        let x = lists::item(forth, i);
        let y = pieces::item_from_end(back, i);
        arc::arc_bridge(mesh, around, x, y)?;
    }
    Ok(())
}

// The arc bridges of all pairs, source arcs in order with destination arcs reversed. The arcs near both rings are listed once, before the first.
fn pairs_near(mesh: &mut MeshMut, forth: Links, back: Links) -> Result<(), Refusal>
    ensures pairs { step (mesh_of mesh.new) (allowed result)
        ≡ each_in (λ i a. arc_bridge_by searching a (get_or (list_of forth) i 0) (get_or (reverse (list_of back)) i 0)) (length (list_of forth))
        (mesh_of mesh.old) }
    ensures same { SameMesh mesh.old mesh.new }
{
    lists::known_few(forth);
    let view = mesh.view();
    let ours = near::sources(view.arcs, forth);
    let theirs = near::sources(view.arcs, back);
    let around = near::near_edit(view, ours, theirs, lists::size(forth));
    pairs_in(mesh, &around, forth, back)
}

pub fn bridge_work(mesh: &mut MeshMut, f: u32, g: u32) -> Result<Told, Refusal>
    ensures told { step (mesh_of mesh.new) (answered result) ≡ bridge_work_by searching (mesh_of mesh.old) f g }
    ensures same { SameMesh mesh.old mesh.new }
{
    let view = mesh.view();
    let forth = rings::ring_of(view.arcs, view.faces, f);
    let back = rings::ring_of(view.arcs, view.faces, g);
    face::remove_face(mesh, f);
    face::remove_face(mesh, g);
    pairs_near(mesh, forth, back)?;
    Ok(Told::Key(0))
}
