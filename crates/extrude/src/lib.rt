// Extrude. Document 01's rule 10: "Remove; moved copies of the ring's vertices; top face; walls (a,b,d,c) for each ring pair, c and d the
// copies of a and b. Marks 0; the answer is the top face."

#![tactic(auto)]

ghost use Rattle.std.specs.Prelude.{◌≡◌, ◌<◌, length};
ghost use Rattle.rules.specs.Answer.{Done};
ghost use Rattle.rules.specs.Table.{up_to};
ghost use Rattle.rules.specs.Mesh.{links_of, list_of};
ghost use Rattle.rules.specs.Lent.{mesh_of, SameMesh, allowed, answered};
ghost use Rattle.rules.specs.Step.{step, and_then, answering};
ghost use Rattle.rules.specs.Extrude.{copies, wall};
ghost use Rattle.makers.specs.Makers.{searching, insert_face_by, extrude_work_by};
ghost use Rattle.edits.specs.Each.{each_in};
ghost use Rattle.edits.specs.Known.{Known};

use checks::rings;
use edits::near::Around;
use edits::{face, near, pieces};
use rules::{Links, MeshMut, Move, RING, Refusal, Told};

// Moved copies of the vertices, made in order: their links.
fn copies_in(mesh: &mut MeshMut, by: Move, vs: Links) -> Links
    ensures copies { record { tables = mesh_of mesh.new; links = list_of result } ≡ copies (mesh_of mesh.old) by (list_of vs) }
    ensures same { SameMesh mesh.old mesh.new }
{
    let n = lists::size(vs);
    lists::known_few(vs);
    let mut at = [0u32; RING];
    let mut from: u32 = 0;
    for i in 0..n {
        from = pieces::copied(mesh, from, lists::item(vs, i), by);
        at[i] = from;
    }
    Links { at, len: n }
}

// The four corners of a wall: ring pair i, and its copies the other way.
fn wall_at(vs: Links, ds: Links, i: usize) -> Links
    requires { i < length (list_of vs) }
    ensures { result ≡ links_of (wall (list_of vs) (list_of ds) i) }
{
    let n = lists::size(vs);
    let j = lists::place_after(n, i);
    let corners = [
        lists::item(vs, i),
        lists::item(vs, j),
        lists::item(ds, j),
        lists::item(ds, i),
    ];
    lists::from_keys(&corners)
}

// The walls, ring pair by ring pair: done, or the first refusal.
fn walls_in(mesh: &mut MeshMut, around: &Around, vs: Links, ds: Links) -> Result<(), Refusal>
    requires { Known (mesh_of mesh.old) around.now }
    ensures walls { step (mesh_of mesh.new) (allowed result)
        ≡ each_in (λ i a. insert_face_by searching a (wall (list_of vs) (list_of ds) i) 0) (length (list_of vs)) (mesh_of mesh.old) }
    ensures same { SameMesh mesh.old mesh.new }
{
    for i in 0..lists::size(vs) {
        face::insert_face(mesh, around, wall_at(vs, ds, i), 0)?;
    }
    Ok(())
}

// The top face, then the walls, with one list of the arcs near the ring and its copies: done, or the first refusal.
fn top_and_walls(mesh: &mut MeshMut, vs: Links, ds: Links) -> Result<(), Refusal>
    ensures faces { step (mesh_of mesh.new) (allowed result)
        ≡ answering Done
        (up_to (λ i s. and_then s (λ a. insert_face_by searching a (wall (list_of vs) (list_of ds) i) 0)) (length (list_of vs))
        (insert_face_by searching (mesh_of mesh.old) (list_of ds) 0)) }
    ensures same { SameMesh mesh.old mesh.new }
{
    lists::known_few(vs);
    let around = near::near_edit(mesh.view(), vs, ds, 2 * lists::size(vs));
    face::insert_face(mesh, &around, ds, 0)?;
    walls_in(mesh, &around, vs, ds)
}

// Vertices that were there keep their places.
pub fn extrude_work(mesh: &mut MeshMut, f: u32, by: Move) -> Result<Told, Refusal>
    ensures told { step (mesh_of mesh.new) (answered result) ≡ extrude_work_by searching (mesh_of mesh.old) f by }
    ensures same { SameMesh mesh.old mesh.new }
{
    let view = mesh.view();
    let vs = rings::vertices_of(view.arcs, view.faces, f);
    let key = mesh.counters[2];
    edges::face::remove_face(mesh, f);
    let ds = copies_in(mesh, by, vs);
    top_and_walls(mesh, vs, ds)?;
    Ok(Told::Key(key))
}
