// The arcs of a perimeter's pairs, found in one pass over the arc table. Pair i of a perimeter runs from its vertex i to the one after.
// It carries the lookups of document 01's rule 5: "perimeter pairs in order: an existing arc ..". Each of them alone is `rows::find_arc`.
// And whether two pairs join the same vertices: an edge that is made for one pair is then another pair's too.

#![tactic(auto)]

pub mod marked; // marked.rt: blocks of rows without a mark
pub mod near; // near.rt: arcs near an edit, listed in one pass for all its perimeters

ghost use Rattle.std.specs.Prelude.{◌≡◌, ◌<◌, ◌≤◌, length, get_or, take, eqb};
ghost use Rattle.rules.specs.Table.{after, or_else};
ghost use Rattle.rules.specs.Mesh.{links_of, list_of};
ghost use Rattle.pairs.specs.Pairs.{arcs_of, marks_of, noted, same_two, met_before};

use rules::{ArcRow, Links, RING};
use tables::rows::ROW_LIMIT;

// How many remainders are told apart: as many as there are vertices.
pub const MARKS: usize = 4096;

// Which remainders the numbers of a list leave: a number with no mark at its own is not in the list.
fn marks(list: Links) -> [bool; MARKS]
    ensures { result ≡ marks_of (list_of list) }
{
    let mut seen = [false; MARKS];
    near::mark(&mut seen, list);
    seen
}

// x, or the other where x is none.
pub fn or_else(x: u32, other: u32) -> u32
    ensures { result ≡ or_else x other }
{
    if x == 0 { other } else { x }
}

// Whether pair i leads to d.
fn leads_to(per: Links, i: usize, d: u32) -> bool
    requires { i < length (list_of per) }
    ensures { result ≡ eqb d (get_or (list_of per) (after (length (list_of per)) i) 0) }
{
    d == lists::item(per, lists::place_after(lists::size(per), i))
}

// The arc x from s to d noted at its pairs, where none was noted before. None leads from none.
fn note(at: &mut [u32; RING], per: Links, s: u32, d: u32, x: u32)
    ensures { at.new ≡ noted (list_of per) s d x at.old }
{
    if s == 0 {
        return;
    }
    for i in 0..per.len.min(RING) {
        if s == per.at[i] && leads_to(per, i, d) {
            at[i] = or_else(at[i], x);
        }
    }
}

// The arcs of all pairs in order, 0 for none.
pub fn perimeter_arcs(arcs: &[ArcRow], per: Links) -> Links
    ensures { result ≡ links_of (arcs_of arcs.now (list_of per)) }
{
    let len = lists::size(per);
    let mut at = [0u32; RING];
    if arcs.len() > ROW_LIMIT {
        return Links { at, len };
    }
    let seen = marks(per);
    let mut i = marked::skip(arcs, &seen, 0);
    while i < arcs.len() {
        note(&mut at, per, arcs[i][0], arcs[i][1], i as u32 + 1);
        i = marked::skip(arcs, &seen, i + 1);
    }
    Links { at, len }
}

// Whether s and d are a and b, in either order.
fn same_two(s: u32, d: u32, a: u32, b: u32) -> bool
    ensures { result ≡ same_two s d a b }
{
    (s == a) & (d == b) | (d == a) & (s == b)
}

// Whether a pair before i joins the same two vertices as pair i, where these are n vertices of a perimeter.
pub fn met_before(at: &[u32; RING], n: usize, i: usize) -> bool
    requires { (n ≤ 64) × (i < n) }
    ensures { result ≡ met_before (take n at.now) i i }
{
    let a = at[i];
    let b = at[lists::place_after(n, i)];
    for j in 0..i {
        if same_two(at[j], at[j + 1], a, b) {
            return true;
        }
    }
    false
}
