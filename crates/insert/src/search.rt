// What the exterior asks of a perimeter's lists, searched for before anything is changed. Document 01's rule 5: the lists are older than the edges,
// and each is asked for its first arc, or its first opposite, that has no face once the interior is in. An arc counts as held that has a face, or
// will have one soon. The search is the form that the document names: a loop that leaves by break with what it found, or none.

ghost use Rattle.std.specs.Prelude.{◌≡◌, true, [], ◌++◌, ◌⊎◌, take};
ghost use Rattle.std.specs.Option.{is_some, unwrap_or};
ghost use Rattle.rules.specs.Mesh.{list_of};
ghost use Rattle.rules.specs.Lent.{mesh_in};
ghost use Rattle.makers.specs.Search.{held_in, out_from, back_from, sought_for};
ghost use Rattle.insert.specs.Sought.{sought_of, Tries};

use rules::{ArcRow, EdgeRow, Links, MeshRef, RING};
use tables::rows;

// What was found for each vertex of a perimeter: the first free arc of its list, and the first free opposite, 0 where there is none.
#[derive(Clone, Copy)]
pub struct Sought {
    pub outs: Links,
    pub backs: Links,
}

// No links.
pub fn none() -> Links
    ensures { list_of result ≡ [] }
{
    Links {
        at: [0; RING],
        len: 0,
    }
}

// Whether an arc is held: it has a face, or it is one of those that will have one, mine and others.
fn is_held(arcs: &[ArcRow], mine: &[u32], others: &[u32], x: u32) -> bool
    ensures { result ≡ held_in arcs.now (mine.now ++ others.now) x }
{
    rows::cell(arcs, x, 4) != 0 || mine.contains(&x) || others.contains(&x)
}

// The saved arc once x stands at place k of a list: those at the powers of two are saved, each in place of the one before.
fn saved_at(k: usize, saved: u32, x: u32) -> u32
    ensures { (result ≡ saved) ⊎ (result ≡ x) }
{
    if k.is_power_of_two() { x } else { saved }
}

// What both searches of a list found.
#[derive(Clone, Copy)]
struct Free {
    out: Option<u32>,
    back: Option<u32>,
}

// A search tries an arc: it is found where it is not held, unless another was found before.
fn tried(found: Option<u32>, held: bool, x: u32) -> Option<u32>
    ensures { Tries (is_some found) (unwrap_or found 0) held x (is_some result) (unwrap_or result 0) }
{
    if found.is_some() || held {
        return found;
    }
    Some(x)
}

// The first arc of the list from first that is not held, and the first of the opposites of its arcs, or none, in one walk. A list that runs in a circle
// past its first arc is left where it meets the saved arc, by Brent's method: all that follows was met before.
fn free_arcs(arcs: &[ArcRow], edges: &[EdgeRow], mine: &[u32], others: &[u32], first: u32) -> Free
    ensures { (unwrap_or result.out 0 ≡ out_from arcs.now edges.now (mine.now ++ others.now) first)
        × (unwrap_or result.back 0 ≡ back_from arcs.now edges.now (mine.now ++ others.now) first) }
{
    let mut out = None;
    let mut back = None;
    let mut x = first;
    let mut saved = first;
    let mut k: usize = 0;
    while k < arcs.len() {
        if x == 0 {
            break;
        }
        let o = rows::opposite(arcs, edges, x);
        out = tried(out, is_held(arcs, mine, others, x), x);
        back = tried(back, is_held(arcs, mine, others, o), o);
        if out.is_some() && back.is_some() {
            break;
        }
        x = rows::cell(arcs, o, 2);
        if x == first {
            break;
        }
        if x == saved {
            break;
        }
        k += 1;
        saved = saved_at(k, saved, x);
    }
    Free { out, back }
}

// The search for every vertex of a perimeter. Soon to be held are the perimeter's own arcs, found, and others beside.
pub fn search_lists(mesh: MeshRef, per: Links, found: Links, others: Links) -> Sought
    ensures { sought_of result ≡ sought_for (mesh_in mesh.entry) (list_of found ++ list_of others) (list_of per) }
{
    let n = lists::size(per);
    lists::known_few(per);
    lists::known_few(found);
    lists::known_few(others);
    let from = per.at;
    let mine = &found.at[..lists::size(found)];
    let theirs = &others.at[..lists::size(others)];
    let mut outs = [0u32; RING];
    let mut backs = [0u32; RING];
    for i in 0..n {
        let first = rows::cell(mesh.vertices, from[i], 1);
        let free = free_arcs(mesh.arcs, mesh.edges, mine, theirs, first);
        outs[i] = free.out.unwrap_or(0);
        backs[i] = free.back.unwrap_or(0);
    }
    Sought {
        outs: Links { at: outs, len: n },
        backs: Links { at: backs, len: n },
    }
}
