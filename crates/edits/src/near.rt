// What an edit knows of the tables near it, found in one pass for all its faces: the arcs that leave its vertices, and the lowest unused rows, which
// its new arcs, edges and faces take. It carries the lookups of document 01's rule 5, and rule 4's edge that is there or is made.

ghost use Rattle.std.specs.Prelude.{◌≡◌, ◌≤◌};
ghost use Rattle.rules.specs.Mesh.{arc_between};
ghost use Rattle.rules.specs.Lent.{mesh_in, mesh_of, SameMesh};
ghost use Rattle.rules.specs.Link.{get_or_insert_edge};
ghost use Rattle.edges.specs.Free.{UsedBefore};
ghost use Rattle.pairs.specs.Near.{Near};
ghost use Rattle.edits.specs.Known.{Known};

use edges::free::Lowest;
use edges::{edge, free};
use pairs::near::Nearby;
use rules::{ArcRow, Links, MeshMut, MeshRef, RING};
use tables::rows;

// The list of arcs, and where unused rows may be looked for.
#[derive(Clone, Copy)]
pub struct Around {
    pub near: Nearby,
    pub from: Lowest,
}

// Two vertices as a list, to be marked.
pub fn two(a: u32, b: u32) -> Links {
    lists::from_keys(&[a, b])
}

// The sources of a list of arcs, to be marked.
pub fn sources(arcs: &[ArcRow], xs: Links) -> Links {
    let n = lists::size(xs);
    lists::known_few(xs);
    let mut at = [0u32; RING];
    for i in 0..n {
        at[i] = rows::cell(arcs, lists::item(xs, i), 0);
    }
    Links { at, len: n }
}

// Found for an edit among the vertices of two lists that makes so many edges at most.
pub fn near_edit(mesh: MeshRef, one: Links, other: Links, made: usize) -> Around
    requires { made ≤ 128 }
    ensures { Known (mesh_in mesh.entry) result }
{
    let mut near = Nearby::new();
    near.mark(one);
    near.mark(other);
    near.list(mesh.arcs, 2 * made + 1);
    let from = Lowest {
        arc: near.first,
        edge: free::free_row(mesh.edges, 0),
        face: free::free_row(mesh.faces, 0),
    };
    Around { near, from }
}

// The edge from a to b is there, or is made: its arc.
pub fn edge_near(mesh: &mut MeshMut, around: &Around, a: u32, b: u32) -> u32
    requires near { Near mesh.old.arcs.now around.now.near }
    requires used_before { UsedBefore mesh.old.arcs.now around.now.from.arc × UsedBefore mesh.old.edges.now around.now.from.edge }
    ensures edge { mesh_of mesh.new ≡ get_or_insert_edge (mesh_of mesh.old) a b }
    ensures arc { result ≡ arc_between mesh.new.arcs.now a b }
    ensures same { SameMesh mesh.old mesh.new }
{
    let x = around.near.arc_between(mesh.view().arcs, a, b);
    if x != 0 {
        return x;
    }
    edge::new_edge_from(mesh, around.from, a, b);
    around.near.arc_between(mesh.view().arcs, a, b)
}
