// Poke. Document 01's rule 7: "Remove, new vertex c, then (a, b, c) for each ring pair. Marks are copied; the answer is c."

#![tactic(auto)]

ghost use Rattle.std.specs.Prelude.{◌≡◌, [], ◌∷◌, ◌<◌, length, get_or};
ghost use Rattle.rules.specs.Table.{after};
ghost use Rattle.rules.specs.Mesh.{links_of, list_of};
ghost use Rattle.rules.specs.Lent.{mesh_of, SameMesh, allowed, answered};
ghost use Rattle.rules.specs.Step.{step};
ghost use Rattle.makers.specs.Makers.{searching, insert_face_by, poke_work_by};
ghost use Rattle.edits.specs.Each.{each_in};
ghost use Rattle.edits.specs.Known.{Known};

use checks::rings;
use edges::vertex;
use edits::near::Around;
use edits::{face, near};
use rules::{Links, MeshMut, Position, Refusal, Told};
use tables::rows;

// The three corners of a part: ring pair i and the new vertex.
fn part(vs: Links, i: usize, c: u32) -> Links
    requires { i < length (list_of vs) }
    ensures { result ≡ links_of (get_or (list_of vs) i 0 ∷ get_or (list_of vs) (after (length (list_of vs)) i) 0 ∷ c ∷ []) }
{
    let n = lists::size(vs);
    let corners = [
        lists::item(vs, i),
        lists::item(vs, lists::place_after(n, i)),
        c,
    ];
    lists::from_keys(&corners)
}

// The parts, ring pair by ring pair: done, or the first refusal.
fn parts_in(
    mesh: &mut MeshMut,
    around: &Around,
    vs: Links,
    c: u32,
    mark: u32,
) -> Result<(), Refusal>
    requires { Known (mesh_of mesh.old) around.now }
    ensures parts { step (mesh_of mesh.new) (allowed result)
        ≡ each_in (λ i a. insert_face_by searching a (get_or (list_of vs) i 0 ∷ get_or (list_of vs) (after (length (list_of vs)) i) 0 ∷ c ∷ []) mark)
        (length (list_of vs)) (mesh_of mesh.old) }
    ensures same { SameMesh mesh.old mesh.new }
{
    for i in 0..lists::size(vs) {
        face::insert_face(mesh, around, part(vs, i, c), mark)?;
    }
    Ok(())
}

// The faces (a, b, c) of all ring pairs. The arcs near the ring and the new vertex are listed once, before the first.
fn parts_near(mesh: &mut MeshMut, vs: Links, c: u32, mark: u32) -> Result<(), Refusal>
    ensures parts { step (mesh_of mesh.new) (allowed result)
        ≡ each_in (λ i a. insert_face_by searching a (get_or (list_of vs) i 0 ∷ get_or (list_of vs) (after (length (list_of vs)) i) 0 ∷ c ∷ []) mark)
        (length (list_of vs)) (mesh_of mesh.old) }
    ensures same { SameMesh mesh.old mesh.new }
{
    lists::known_few(vs);
    let around = near::near_edit(mesh.view(), vs, near::two(c, c), lists::size(vs));
    parts_in(mesh, &around, vs, c, mark)
}

// Vertices that were there keep their places.
pub fn poke_work(mesh: &mut MeshMut, f: u32, position: Position) -> Result<Told, Refusal>
    ensures told { step (mesh_of mesh.new) (answered result) ≡ poke_work_by searching (mesh_of mesh.old) f position }
    ensures same { SameMesh mesh.old mesh.new }
{
    let view = mesh.view();
    let vs = rings::vertices_of(view.arcs, view.faces, f);
    let mark = rows::cell(view.faces, f, 2);
    let key = mesh.counters[0];
    edges::face::remove_face(mesh, f);
    let c = vertex::new_vertex(mesh, 0, position);
    parts_near(mesh, vs, c, mark)?;
    Ok(Told::Key(key))
}
