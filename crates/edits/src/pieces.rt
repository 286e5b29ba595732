// Small parts of the edits: a vertex's key, its moved copy, a list read from its end.

ghost use Rattle.std.specs.Prelude.{◌≡◌, reverse, get_or};
ghost use Rattle.rules.specs.Table.{free_row};
ghost use Rattle.rules.specs.Mesh.{key_at, list_of};
ghost use Rattle.rules.specs.Lent.{mesh_of, SameMesh};
ghost use Rattle.rules.specs.Link.{new_vertex};
ghost use Rattle.rules.specs.Extrude.{moved_position};
ghost use Rattle.edges.specs.Free.{UsedBefore};

use edges::vertex;
use rules::{Links, MeshMut, Move, VertexRow};
use tables::{points, rows, vertices};

// The key of the vertex that a link names.
pub fn key_at(vertices: &[VertexRow], v: u32) -> u32
    ensures { result ≡ key_at vertices.now v }
{
    rows::cell(vertices, v, 0).saturating_sub(1)
}

// The copy of a vertex, moved, in the lowest unused row, which is looked for from a row on; the row's link.
pub fn copied(mesh: &mut MeshMut, from: u32, v: u32, by: Move) -> u32
    requires { UsedBefore mesh.old.vertices.now from }
    ensures row { result ≡ free_row mesh.old.vertices.now }
    ensures vertex { mesh_of mesh.new ≡ new_vertex (mesh_of mesh.old) (moved_position (mesh_of mesh.old) by v) }
    ensures same { SameMesh mesh.old mesh.new }
{
    let view = mesh.view();
    let old = vertices::vertex_at(view.vertices, view.positions, v);
    let place = points::moved(old.position, by);
    vertex::new_vertex(mesh, from, place)
}

// The one at a place counted from the end, or 0 past its first.
pub fn item_from_end(list: Links, i: usize) -> u32
    ensures { result ≡ get_or (reverse (list_of list)) i 0 }
{
    let n = lists::size(list);
    if i >= n {
        return 0;
    }
    lists::item(list, n - 1 - i)
}
