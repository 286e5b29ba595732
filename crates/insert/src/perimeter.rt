// The parts of a face insert: the edges, the interior, the exterior. Document 01's rule 5:
// "Then the edges, the face with the first perimeter arc, and the interior: link, then face, arc by arc. Then the exterior."

ghost use Rattle.std.specs.Prelude.{◌≡◌, false, List, ℕ};
ghost use Rattle.rules.specs.Table.{has};
ghost use Rattle.rules.specs.Mesh.{list_of, with_arcs};
ghost use Rattle.rules.specs.Lent.{mesh_of, SameMesh};
ghost use Rattle.rules.specs.Insert.{edges_in};
ghost use Rattle.edges.specs.Free.{UsedBefore};
ghost use Rattle.pairs.specs.Pairs.{arcs_of};
ghost use Rattle.insert.specs.Perimeter.{edge_in, IsPair, Asked, Tells, interior_by, exterior_to, exterior_by};

use edges::edge;
use edges::free::Lowest;
use rules::{ArcRow, Links, MeshMut, RING};
use tables::{links, rows};

// The edge of a pair is in: from where the next one's rows may be looked for, and the pair's arc, 0 where it is not known.
#[derive(Clone, Copy)]
struct Edged {
    from: Lowest,
    arc: u32,
}

// The first arc x of a new edge from a to b, where it is known to be the arc from a to b: not from none, and not from a vertex to itself.
fn arc_known(x: u32, a: u32, b: u32) -> u32
    ensures { (result ≡ 0 → ⊥) → (result ≡ x) × ((a ≡ 0 → ⊥) × (a ≡ b → ⊥)) }
{
    if a == 0 || a == b {
        return 0;
    }
    x
}

// The edge of the pair i, from a to b, is there, or is made: x is its arc as it was before the edges. That tells, unless a pair before joins the same
// vertices.
fn edge_in(mesh: &mut MeshMut, a: u32, b: u32, met: bool, x: u32, from: Lowest) -> Edged
    requires { UsedBefore mesh.old.arcs.now from.arc × UsedBefore mesh.old.edges.now from.edge }
    ensures edge { (per : List ℕ) (i : ℕ) → IsPair per i a b met → Asked mesh.old.arcs.now mesh.old.edges.now per i x from →
        (mesh_of mesh.new ≡ edge_in per i (mesh_of mesh.old))
        × ((UsedBefore mesh.new.arcs.now result.from.arc × UsedBefore mesh.new.edges.now result.from.edge)
        × Tells mesh.new.arcs.now per i result.arc) }
    ensures same { SameMesh mesh.old mesh.new }
{
    if met {
        edge::get_or_insert_edge(mesh, a, b);
        return Edged { from, arc: 0 };
    }
    if x != 0 {
        return Edged { from, arc: x };
    }
    let made = edge::new_edge_from(mesh, from, a, b);
    let arc = arc_known(made.arc, a, b);
    Edged { from: made, arc }
}

// The edges: each is there, or is made in rows that are looked for from these on. xs are the arcs that are there before. The answer is the arcs
// after, 0 where one is not known.
pub fn edges_in(mesh: &mut MeshMut, per: Links, xs: Links, start: Lowest) -> Links
    requires xs_value { list_of xs ≡ arcs_of mesh.old.arcs.now (list_of per) }
    requires used_before { UsedBefore mesh.old.arcs.now start.arc × UsedBefore mesh.old.edges.now start.edge }
    ensures edges { mesh_of mesh.new ≡ edges_in (list_of per) (mesh_of mesh.old) }
    ensures told { has (list_of result) 0 ≡ false → list_of result ≡ arcs_of mesh.new.arcs.now (list_of per) }
    ensures same { SameMesh mesh.old mesh.new }
{
    let n = lists::size(per);
    lists::known_few(per);
    let ends = per.at;
    let mut at = [0u32; RING];
    let mut from = start;
    for i in 0..n {
        let met = pairs::met_before(&ends, n, i);
        let to = ends[lists::place_after(n, i)];
        let found = lists::item(xs, i);
        let done = edge_in(mesh, ends[i], to, met, found, from);
        from = done.from;
        at[i] = done.arc;
    }
    Links { at, len: n }
}

// The perimeter's arcs: those that are told, if every one is known; else they are looked for.
pub fn arcs_told(arcs: &[ArcRow], per: Links, told: Links) -> Links
    requires { has (list_of told) 0 ≡ false → list_of told ≡ arcs_of arcs.now (list_of per) }
    ensures { list_of result ≡ arcs_of arcs.now (list_of per) }
{
    lists::known_few(per);
    if lists::has_from(told, 0, 0) {
        return pairs::perimeter_arcs(arcs, per);
    }
    told
}

// The interior: link, then face, arc by arc.
pub fn interior(arcs: &mut [ArcRow], xs: Links, face: u32)
    ensures { arcs.new ≡ interior_by (list_of xs) face arcs.old }
{
    let n = lists::size(xs);
    lists::known_few(xs);
    let at = xs.at;
    for i in 0..n {
        let x = at[i];
        links::connect(arcs, x, at[lists::place_after(n, i)]);
        links::set_face(arcs, x, face);
    }
}

// The exterior at the arc x = (a,b), if its opposite has no face: out was found in a's list, back in b's, 0 for none.
fn exterior_at(mesh: &mut MeshMut, out: u32, back: u32, x: u32)
    ensures arcs { mesh_of mesh.new ≡ with_arcs (mesh_of mesh.old) (exterior_to mesh.old.edges.now out back x mesh.old.arcs.now) }
    ensures same { SameMesh mesh.old mesh.new }
{
    let view = mesh.view();
    let o = rows::opposite(view.arcs, view.edges, x);
    if rows::cell(view.arcs, o, 4) != 0 {
        return;
    }
    let before = rows::cell(view.arcs, x, 3);
    let after = rows::cell(view.arcs, x, 2);
    let first = pairs::or_else(out, rows::opposite(view.arcs, view.edges, before));
    let last = pairs::or_else(back, rows::opposite(view.arcs, view.edges, after));
    links::connect(mesh.arcs, o, first);
    links::connect(mesh.arcs, last, o);
}

// The exterior, pair by pair: outs and backs were found in the lists of the perimeter's vertices.
pub fn exterior(mesh: &mut MeshMut, outs: Links, backs: Links, xs: Links)
    ensures arcs { mesh_of mesh.new
        ≡ with_arcs (mesh_of mesh.old) (exterior_by mesh.old.edges.now (list_of outs) (list_of backs) (list_of xs) mesh.old.arcs.now) }
    ensures same { SameMesh mesh.old mesh.new }
{
    let n = lists::size(xs);
    for i in 0..n {
        let out = lists::item(outs, i);
        let back = lists::item(backs, lists::place_after(n, i));
        exterior_at(mesh, out, back, lists::item(xs, i));
    }
}
