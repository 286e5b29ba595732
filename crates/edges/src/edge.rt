// A new arc, a new edge with both its arcs, and the edge that is there or is made. Document 01's rule 4, `get_or_insert_with`:
// "A new arc becomes its source's leading arc; (a,b) is made before (b,a), and a new edge names (a,b)."

ghost use Rattle.std.specs.Prelude.{◌≡◌};
ghost use Rattle.rules.specs.Table.{free_row};
ghost use Rattle.rules.specs.Lent.{mesh_of, SameMesh};
ghost use Rattle.rules.specs.Link.{new_arc, new_edge, get_or_insert_edge};
ghost use Rattle.edges.specs.Free.{UsedBefore};

use crate::free;
use crate::free::Lowest;
use rules::MeshMut;
use tables::{links, rows, vertices};

// The arc (a,b) of the edge e in the lowest unused row, which is looked for from a row on; the row's link.
fn new_arc(mesh: &mut MeshMut, from: u32, a: u32, b: u32, e: u32) -> u32
    requires { UsedBefore mesh.old.arcs.now from }
    ensures row { result ≡ free_row mesh.old.arcs.now }
    ensures arc { mesh_of mesh.new ≡ new_arc (mesh_of mesh.old) a b e }
    ensures same { SameMesh mesh.old mesh.new }
{
    let x = free::free_row(mesh.view().arcs, from);
    rows::put_row(mesh.arcs, x, [a, b, 0, 0, 0, e]);
    links::set_leading(mesh.vertices, a, x);
    x
}

// The edge with both its arcs, in rows that are looked for from these on; the rows of the edge and of its first arc, from which the next
// edge's may be looked for.
pub fn new_edge_from(mesh: &mut MeshMut, from: Lowest, a: u32, b: u32) -> Lowest
    requires { UsedBefore mesh.old.arcs.now from.arc × UsedBefore mesh.old.edges.now from.edge }
    ensures rows { result ≡ record { arc = free_row mesh.old.arcs.now; edge = free_row mesh.old.edges.now; face = from.face } }
    ensures edge { mesh_of mesh.new ≡ new_edge (mesh_of mesh.old) a b }
    ensures same { SameMesh mesh.old mesh.new }
{
    let row = free::free_row(mesh.view().edges, from.edge);
    let x = new_arc(mesh, from.arc, a, b, row);
    let y = new_arc(mesh, x, b, a, row);
    let key = mesh.counters[1];
    let first = vertices::one_up(key);
    rows::put_row(mesh.edges, row, [first, x, y]);
    mesh.counters[1] = first;
    Lowest {
        arc: x,
        edge: row,
        face: from.face,
    }
}

pub fn new_edge(mesh: &mut MeshMut, a: u32, b: u32)
    ensures edge { mesh_of mesh.new ≡ new_edge (mesh_of mesh.old) a b }
    ensures same { SameMesh mesh.old mesh.new }
{
    new_edge_from(mesh, Lowest::default(), a, b);
}

// The edge from a to b is there, or is made.
pub fn get_or_insert_edge(mesh: &mut MeshMut, a: u32, b: u32)
    ensures edge { mesh_of mesh.new ≡ get_or_insert_edge (mesh_of mesh.old) a b }
    ensures same { SameMesh mesh.old mesh.new }
{
    if rows::find_arc(mesh.view().arcs, a, b) == 0 {
        new_edge(mesh, a, b);
    }
}
