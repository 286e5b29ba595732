// The vertices of an edit, marked: those that it is given by their keys, and those of the rings of its faces. Document 01's rules 5 to 10 name them.

ghost use Rattle.std.specs.Prelude.{◌≡◌, List, ℕ, ◌≤◌, length, Float};
ghost use Rattle.rules.specs.declared.Edit.TheVariants.{FaceInsert};
ghost use Rattle.rules.specs.Lent.{mesh_in};
ghost use Rattle.rules.specs.Table.{Table};
ghost use Rattle.rules.specs.Mesh.{mesh, find_key};
ghost use Rattle.rules.specs.Link.{ring_vertices};
ghost use Rattle.rules.specs.Call.{by_keys};
ghost use Rattle.kept.specs.Local.{among};
ghost use Rattle.nearby.specs.Marks.{Marks};

use checks::rings;
use pairs::{MARKS, near};
use rules::{ArcRow, Edit, FaceRow, MeshRef, VertexRow};
use tables::rows;

// The vertices with at most 64 keys.
fn mark_keys(seen: &mut [bool; MARKS], vertices: &[VertexRow], keys: &[u32])
    requires { length keys.now ≤ 64 }
    ensures { (p : List (List Float)) (a e f : Table) (k : List ℕ) →
        Marks seen.old seen.new (by_keys (mesh vertices.now p a e f k) keys.now) }
{
    let names = lists::from_keys(keys);
    near::mark(seen, lists::vertices_by_keys(vertices, names));
}

// The vertices of the ring of the face with a key.
fn mark_ring(seen: &mut [bool; MARKS], arcs: &[ArcRow], faces: &[FaceRow], key: u32)
    ensures { (v : Table) (p : List (List Float)) (e : Table) (k : List ℕ) →
        Marks seen.old seen.new
        (ring_vertices (mesh v p arcs.now e faces.now k) (find_key faces.now key)) }
{
    let f = rows::find_key(faces, key);
    near::mark(seen, rings::vertices_of(arcs, faces, f));
}

// All vertices of an edit. A face insert has at most 64 keys.
pub fn mark_edit(seen: &mut [bool; MARKS], mesh: MeshRef, edit: Edit, keys: &[u32])
    requires { (mark : ℕ) → edit ≡ FaceInsert mark → length keys.now ≤ 64 }
    ensures { Marks seen.old seen.new (among (mesh_in mesh.entry) edit keys.now) }
{
    match edit {
        Edit::VertexInsert(_) => {}
        Edit::FaceInsert(_) => mark_keys(seen, mesh.vertices, keys),
        Edit::FaceRemove(face)
        | Edit::FaceSplit(face, _, _)
        | Edit::FacePoke(face, _)
        | Edit::FaceExtrude(face, _) => mark_ring(seen, mesh.arcs, mesh.faces, face),
        Edit::FaceBridge(source, destination) => {
            mark_ring(seen, mesh.arcs, mesh.faces, source);
            mark_ring(seen, mesh.arcs, mesh.faces, destination);
        }
        Edit::ArcBridge(a, b, c, d) => mark_keys(seen, mesh.vertices, &[a, b, c, d]),
        Edit::ArcExtrude(s, d, _) => mark_keys(seen, mesh.vertices, &[s, d]),
    }
}
