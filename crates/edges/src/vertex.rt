// A new vertex. Document 01's rule 1: "Insert gives no leading arc."

ghost use Rattle.std.specs.Prelude.{◌≡◌};
ghost use Rattle.rules.specs.Table.{free_row};
ghost use Rattle.rules.specs.Lent.{mesh_of, SameMesh};
ghost use Rattle.rules.specs.Link.{new_vertex};
ghost use Rattle.edges.specs.Free.{UsedBefore};

use crate::free;
use rules::{MeshMut, Position, Vertex};
use tables::vertices;

// The vertex in the lowest unused row, which is looked for from a row on, with the next key; the row's link.
pub fn new_vertex(mesh: &mut MeshMut, from: u32, position: Position) -> u32
    requires { UsedBefore mesh.old.vertices.now from }
    ensures row { result ≡ free_row mesh.old.vertices.now }
    ensures vertex { mesh_of mesh.new ≡ new_vertex (mesh_of mesh.old) position }
    ensures same { SameMesh mesh.old mesh.new }
{
    let row = free::free_row(mesh.view().vertices, from);
    let key = mesh.counters[0];
    let vertex = Vertex {
        key,
        position,
        leading: 0,
    };
    vertices::put_vertex(mesh.vertices, mesh.positions, row, vertex);
    mesh.counters[0] = vertices::one_up(key);
    row
}
