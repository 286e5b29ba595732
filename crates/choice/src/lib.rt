// The edits by keys, each on one set of tables behind its checks, and the choice among them: document 01's nine edits.

#![tactic(auto)]

ghost use Rattle.std.specs.Prelude.{◌≡◌, List, ℕ, ◌≤◌, length};
ghost use Rattle.rules.specs.Answer.{Key, Mark};
ghost use Rattle.rules.specs.declared.Edit.TheVariants.{VertexInsert, FaceInsert, FaceRemove, FaceSplit, FacePoke, FaceBridge, FaceExtrude, ArcBridge, ArcExtrude};
ghost use Rattle.rules.specs.Lent.{mesh_of, SameMesh, answered};
ghost use Rattle.rules.specs.Step.{step};
ghost use Rattle.makers.specs.Makers.{searching, work_by};

use checks::call;
use rules::{Edit, MeshMut, Move, Position, Refusal, Told};
use tables::rows;

// The vertex's key.
fn vertex_insert(mesh: &mut MeshMut, position: Position) -> u32
    ensures told { (ks : List ℕ) → step (mesh_of mesh.new) (Key result) ≡ work_by searching (mesh_of mesh.old) (VertexInsert position) ks }
    ensures same { SameMesh mesh.old mesh.new }
{
    let key = mesh.counters[0];
    edges::vertex::new_vertex(mesh, 0, position);
    key
}

// Of at most 64 keys: the face's key.
fn face_insert(mesh: &mut MeshMut, mark: u32, keys: &[u32]) -> u32
    requires { length keys.now ≤ 64 }
    ensures told { step (mesh_of mesh.new) (Key result) ≡ work_by searching (mesh_of mesh.old) (FaceInsert mark) keys.now }
    ensures same { SameMesh mesh.old mesh.new }
{
    let per = lists::vertices_by_keys(mesh.view().vertices, lists::from_keys(keys));
    let key = mesh.counters[2];
    insert::face::insert_work(mesh, per, mark);
    key
}

// The mark that the face had.
fn face_remove(mesh: &mut MeshMut, face: u32) -> u32
    ensures told { (ks : List ℕ) → step (mesh_of mesh.new) (Mark result) ≡ work_by searching (mesh_of mesh.old) (FaceRemove face) ks }
    ensures same { SameMesh mesh.old mesh.new }
{
    let faces = mesh.view().faces;
    let f = rows::find_key(faces, face);
    let mark = rows::cell(faces, f, 2);
    edges::face::remove_face(mesh, f);
    mark
}

fn face_split(mesh: &mut MeshMut, face: u32, s: u32, d: u32) -> Result<Told, Refusal>
    ensures told { (ks : List ℕ) → step (mesh_of mesh.new) (answered result) ≡ work_by searching (mesh_of mesh.old) (FaceSplit face s d) ks }
    ensures same { SameMesh mesh.old mesh.new }
{
    let view = mesh.view();
    let f = rows::find_key(view.faces, face);
    let from = rows::find_key(view.vertices, s);
    let to = rows::find_key(view.vertices, d);
    split::split_work(mesh, f, from, to)
}

fn face_poke(mesh: &mut MeshMut, face: u32, position: Position) -> Result<Told, Refusal>
    ensures told { (ks : List ℕ) → step (mesh_of mesh.new) (answered result) ≡ work_by searching (mesh_of mesh.old) (FacePoke face position) ks }
    ensures same { SameMesh mesh.old mesh.new }
{
    let f = rows::find_key(mesh.view().faces, face);
    poke::poke_work(mesh, f, position)
}

fn face_bridge(mesh: &mut MeshMut, source: u32, destination: u32) -> Result<Told, Refusal>
    ensures told { (ks : List ℕ) → step (mesh_of mesh.new) (answered result) ≡ work_by searching (mesh_of mesh.old) (FaceBridge source destination) ks }
    ensures same { SameMesh mesh.old mesh.new }
{
    let faces = mesh.view().faces;
    let f = rows::find_key(faces, source);
    let g = rows::find_key(faces, destination);
    bridge::bridge_work(mesh, f, g)
}

fn face_extrude(mesh: &mut MeshMut, face: u32, by: Move) -> Result<Told, Refusal>
    ensures told { (ks : List ℕ) → step (mesh_of mesh.new) (answered result) ≡ work_by searching (mesh_of mesh.old) (FaceExtrude face by) ks }
    ensures same { SameMesh mesh.old mesh.new }
{
    let f = rows::find_key(mesh.view().faces, face);
    extrude::extrude_work(mesh, f, by)
}

// The face's key.
fn arc_bridge(mesh: &mut MeshMut, a: u32, b: u32, c: u32, d: u32) -> u32
    ensures told { (ks : List ℕ) → step (mesh_of mesh.new) (Key result) ≡ work_by searching (mesh_of mesh.old) (ArcBridge a b c d) ks }
    ensures same { SameMesh mesh.old mesh.new }
{
    let four = call::four_by_keys(mesh.view().vertices, a, b, c, d);
    edits::arc::arc_bridge_work(mesh, four)
}

fn arc_extrude(mesh: &mut MeshMut, s: u32, d: u32, by: Move) -> Result<Told, Refusal>
    ensures told { (ks : List ℕ) → step (mesh_of mesh.new) (answered result) ≡ work_by searching (mesh_of mesh.old) (ArcExtrude s d by) ks }
    ensures same { SameMesh mesh.old mesh.new }
{
    let view = mesh.view();
    let x = call::arc_by_keys(view.vertices, view.arcs, s, d);
    edits::arc::arc_extrude_work(mesh, x, by)
}

// The edit that is chosen. A face insert has at most 64 keys.
pub fn work(mesh: &mut MeshMut, edit: Edit, keys: &[u32]) -> Result<Told, Refusal>
    requires { (mark : ℕ) → edit ≡ FaceInsert mark → length keys.now ≤ 64 }
    ensures told { step (mesh_of mesh.new) (answered result) ≡ work_by searching (mesh_of mesh.old) edit keys.now }
    ensures same { SameMesh mesh.old mesh.new }
{
    match edit {
        Edit::VertexInsert(position) => Ok(Told::Key(vertex_insert(mesh, position))),
        Edit::FaceInsert(mark) => Ok(Told::Key(face_insert(mesh, mark, keys))),
        Edit::FaceRemove(face) => Ok(Told::Mark(face_remove(mesh, face))),
        Edit::FaceSplit(face, s, d) => face_split(mesh, face, s, d),
        Edit::FacePoke(face, position) => face_poke(mesh, face, position),
        Edit::FaceBridge(source, destination) => face_bridge(mesh, source, destination),
        Edit::FaceExtrude(face, by) => face_extrude(mesh, face, by),
        Edit::ArcBridge(a, b, c, d) => Ok(Told::Key(arc_bridge(mesh, a, b, c, d))),
        Edit::ArcExtrude(s, d, by) => arc_extrude(mesh, s, d, by),
    }
}
