// A face's ring: its arcs from the face's arc by next, its vertices, a vertex's place on it, and the shorter way round.
// It carries document 01's rule 3, "A ring starts at the face's arc and follows next", and rule 6's ring distance.

ghost use Rattle.std.specs.Prelude.{◌≡◌, ◌+◌, map, MatchOption};
ghost use Rattle.rules.specs.Table.{cell};
ghost use Rattle.rules.specs.Mesh.{links_of, list_of};
ghost use Rattle.rules.specs.Link.{walk_of};
ghost use Rattle.rules.specs.Edit.{place, ring_distance};

use rules::{ArcRow, Ended, Links, RING, Walk};
use tables::rows;

// The ring from its first arc, with how it ended.
// Kept: no heap: the list is filled place by place, and how many places there are is the loop's own number.
pub fn ring(arcs: &[ArcRow], first: u32) -> Walk
    ensures { result ≡ walk_of (λ x. cell arcs.now x 2) first 64 }
{
    let mut at = [0u32; RING];
    let mut x = first;
    for len in 0..RING {
        if x == 0 {
            return Walk {
                links: Links { at, len },
                ended: Ended::Open,
            };
        }
        at[len] = x;
        x = rows::cell(arcs, x, 2);
        if x == first {
            return Walk {
                links: Links { at, len: len + 1 },
                ended: Ended::Closed,
            };
        }
    }
    let ended = if x == 0 { Ended::Open } else { Ended::Cut };
    Walk {
        links: Links { at, len: RING },
        ended,
    }
}

// The ring's vertices: its arcs' destinations in that order.
pub fn ring_vertices(arcs: &[ArcRow], ring: Links) -> Links
    ensures { result ≡ links_of (map (λ x. cell arcs.now x 1) (list_of ring)) }
{
    let len = ring.len.min(RING);
    let mut at = [0u32; RING];
    for (i, x) in ring.at[..len].iter().enumerate() {
        at[i] = rows::cell(arcs, *x, 1);
    }
    Links { at, len }
}

// The place of x in a list.
pub fn place_in(list: Links, x: u32) -> Option<usize>
    ensures { MatchOption result (place (list_of list) x ≡ 0) (λ i. place (list_of list) x ≡ i + 1) }
{
    let len = list.len.min(RING);
    list.at[..len].iter().position(|y| *y == x)
}

// The shorter way round from place i to place j of a ring of n.
pub fn ring_distance(n: usize, i: usize, j: usize) -> usize
    ensures { result ≡ ring_distance n i j }
{
    let way = i.abs_diff(j);
    way.min(n.saturating_sub(way))
}
