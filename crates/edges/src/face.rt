// A new face record, and a face taken out. Document 01's rule 5, "the face with the first perimeter arc", and rule 2: "Removing a face
// clears only the face of its ring's arcs and drops the record; arcs, edges and links stay."

ghost use Rattle.std.specs.Prelude.{◌≡◌, length, get_or};
ghost use Rattle.rules.specs.Table.{put, free_row, up_to};
ghost use Rattle.rules.specs.Mesh.{list_of};
ghost use Rattle.rules.specs.Lent.{mesh_of, SameMesh};
ghost use Rattle.rules.specs.Insert.{new_face};
ghost use Rattle.rules.specs.Edit.{remove};
ghost use Rattle.edges.specs.Free.{UsedBefore};

use crate::free;
use rules::{ArcRow, Links, MeshMut};
use tables::{links, rows, vertices};

// The record with its arc and mark in the lowest unused row, which is looked for from a row on, with the next key; the row's link.
pub fn new_face(mesh: &mut MeshMut, from: u32, x: u32, mark: u32) -> u32
    requires { UsedBefore mesh.old.faces.now from }
    ensures row { result ≡ free_row mesh.old.faces.now }
    ensures face { mesh_of mesh.new ≡ new_face (mesh_of mesh.old) x mark }
    ensures same { SameMesh mesh.old mesh.new }
{
    let row = free::free_row(mesh.view().faces, from);
    let key = mesh.counters[2];
    let first = vertices::one_up(key);
    rows::put_row(mesh.faces, row, [first, x, mark]);
    mesh.counters[2] = first;
    row
}

// The face of each of the ring's arcs is cleared.
fn clear_faces(arcs: &mut [ArcRow], ring: Links)
    ensures { arcs.new ≡ up_to (λ i t. put t (get_or (list_of ring) i 0) 4 0) (length (list_of ring)) arcs.old }
{
    for i in 0..lists::size(ring) {
        links::set_face(arcs, lists::item(ring, i), 0);
    }
}

// The face is taken out.
pub fn remove_face(mesh: &mut MeshMut, f: u32)
    ensures face { mesh_of mesh.new ≡ remove (mesh_of mesh.old) f }
    ensures same { SameMesh mesh.old mesh.new }
{
    let first = rows::cell(mesh.view().faces, f, 1);
    let walk = walks::rings::ring(mesh.view().arcs, first);
    clear_faces(mesh.arcs, walk.links);
    rows::put_row(mesh.faces, f, [0, 0, 0]);
}
