// The arcs near an edit, listed in one pass over the arc table for all perimeters of that edit, and looked up there: document 01's rule 5,
// "perimeter pairs in order: an existing arc ..". Listed are the arcs that leave a vertex with a mark, and the lowest unused rows: new arcs take
// them, so the list stays true while its last unused row, the spare one, is unused. Where the list does not tell, a lookup goes over the table.
// Arcs that were there when they were listed are looked up by chains, the others by a pass that ends at the first row not taken yet.

ghost use Rattle.std.specs.Prelude.{◌≡◌, Bool, true, false, List, ◌∷◌, ◌++◌, [], ℕ, ◌+◌, ◌<◌, ◌≤◌, length, get_or, set, take, replicate};
ghost use Rattle.rules.specs.Table.{cell, unused, after};
ghost use Rattle.rules.specs.Mesh.{links_of, list_of, arc_between};
ghost use Rattle.pairs.specs.Pairs.{arcs_of, marked_at};
ghost use Rattle.pairs.specs.Near.{is_marked, AllMarked, Near, Telling, Onward, Met, Least, Sought, lower_link, LinkNoted, Chained, marking, chaining};

use crate::{MARKS, marked};
use rules::{ArcRow, Links, RING};
use tables::rows::{self, ROW_LIMIT};

// How many links a list holds.
const LISTED: usize = 1024;

// How many remainders of sources are told apart in a list.
const CHAINS: usize = 128;

// The links are followed, for each of them, by the place of the last one before it whose row has a source of the same remainder, and then by the last
// place of all for each remainder. Places are counted from 1, and 0 is none.
pub const NEAR: usize = 2176;

// The vertices that have a mark, and the links of the arcs that leave one.
// Kept: no heap and fixed memory: the links, their number and their chains lie in one array, and 0 is none there as in a table's cell.
#[derive(Clone, Copy)]
pub struct Nearby {
    pub seen: [bool; MARKS],
    pub links: [u32; NEAR],
    pub len: usize, // how many links are listed
    pub spare: u32, // the last unused row among them; 0 where the list tells nothing
    pub first: u32, // the lowest unused row
    pub used: usize, // how many links are listed up to the last used row
    pub chained: usize, // how many from the start on are chained
}

// Marks at the vertices of a list.
pub fn mark(seen: &mut [bool; MARKS], list: Links)
    ensures { seen.new ≡ marked_at seen.old (list_of list) }
{
    for i in 0..list.len.min(RING) {
        seen[rows::wide(list.at[i]) % MARKS] = true;
    }
}

// Goes on from a row to the first that has a mark, or is unused while unused rows are left to list.
fn onward(
    arcs: &[ArcRow],
    seen: &[bool; MARKS],
    marks: &[bool; MARKS],
    left: usize,
    from: usize,
) -> usize
    requires { (from ≤ length arcs.now) × ((0 < length seen.now) × (marks.now ≡ set seen.now 0 true)) }
    ensures { Onward arcs.now seen.now left from result }
{
    if left == 0 {
        return marked::skip(arcs, seen, from);
    }
    marked::skip(arcs, marks, from)
}

// No link is chained.
fn no_chains(links: &mut [u32; NEAR])
    ensures { (k : ℕ) → 2048 ≤ k → k < 2176 → get_or links.new k 0 ≡ 0 }
{
    links[2 * LISTED..].fill(0);
}

// The lesser of two links. 0 is none.
// Kept: of links, where 0 is none, the lesser is not `min`.
fn lower(m: u32, x: u32) -> u32
    ensures { result ≡ lower_link m x }
{
    if m == 0 || x < m { x } else { m }
}

// The lesser of two links, the second only where it names an arc from a to b.
fn lesser(arcs: &[ArcRow], a: u32, b: u32, m: u32, x: u32) -> u32
    requires { a ≡ 0 → ⊥ }
    ensures { (list : List ℕ) → Least arcs.now a b list m → Least arcs.now a b (list ++ (x ∷ [])) result }
{
    if rows::cell(arcs, x, 0) == a && rows::cell(arcs, x, 1) == b {
        lower(m, x)
    } else {
        m
    }
}

// The vertices that the pairs of a perimeter lead to.
fn ends(per: Links) -> [u32; RING]
    ensures { (i : ℕ) → i < length (list_of per) → get_or result i 0 ≡ get_or (list_of per) (after (length (list_of per)) i) 0 }
{
    let n = per.len.min(RING);
    let mut to = [0u32; RING];
    for i in 0..n {
        to[i] = per.at[lists::place_after(n, i)];
    }
    to
}

// The link x of an arc from s to d, noted at each of the n pairs that run so and have no lesser link. Pair i runs from from[i] to to[i].
// Kept: two lists side by side with one length: pair i is a place of both, and a list of pairs would have to be made for each perimeter.
fn note_listed(
    at: &mut [u32; RING],
    from: &[u32; RING],
    to: &[u32; RING],
    n: usize,
    s: u32,
    d: u32,
    x: u32,
)
    requires { n ≤ 64 }
    ensures { LinkNoted from.now to.now s d x at.old n at.new }
{
    for i in 0..n {
        if s == from[i] && d == to[i] {
            at[i] = lower(at[i], x);
        }
    }
}

// Whether s is one of the first four vertices.
fn of_four(from: &[u32; RING], s: u32) -> bool
    ensures { result ≡ false → (i : ℕ) → i < 4 → s ≡ get_or from.now i 0 → ⊥ }
{
    (s == from[0]) | (s == from[1]) | (s == from[2]) | (s == from[3])
}

impl Nearby {
    // No mark, and no link.
    pub fn new() -> Nearby
        ensures { result ≡ record {
          seen = replicate 4096 false;
          links = replicate 2176 0;
          len = 0;
          spare = 0;
          first = 0;
          used = 0;
          chained = 0;
        } }
    {
        Nearby {
            seen: [false; MARKS],
            links: [0; NEAR],
            len: 0,
            spare: 0,
            first: 0,
            used: 0,
            chained: 0,
        }
    }

    // Marks at the vertices of a list.
    pub fn mark(&mut self, list: Links)
        ensures { self.new ≡ marking self.old (list_of list) }
    {
        mark(&mut self.seen, list);
    }

    // ---- the pass that lists them

    // The list tells nothing.
    fn forget(&mut self)
        ensures { (self.new.seen ≡ self.old.seen) × (self.new.links ≡ self.old.links)
            × (self.new.len ≡ 0) × (self.new.spare ≡ 0) × (self.new.first ≡ 0) × (self.new.used ≡ 0) × (self.new.chained ≡ 0) }
    {
        self.len = 0;
        self.spare = 0;
        self.first = 0;
        self.used = 0;
        self.chained = 0;
    }

    // The link at place n, of a row that leaves s, chained where all before it are.
    fn chain(&mut self, s: u32, n: usize)
        requires { n < 1024 }
        ensures { self.new ≡ chaining self.old n s }
    {
        if self.chained == n {
            let last = 2 * LISTED + rows::wide(s) % CHAINS;
            self.links[LISTED + n] = self.links[last];
            self.links[last] = n as u32 + 1;
            self.chained = n + 1;
        }
    }

    // Row i listed, but an unused row only while such are left to list: how many are left then.
    fn meet(&mut self, arcs: &[ArcRow], i: usize, left: usize) -> usize
        requires { (i < length arcs.now) × ((length arcs.now ≤ 16384) × (self.old.len < 1024)) }
        ensures met { Met arcs.now self.old i left → Met arcs.now self.new (i + 1) result }
        ensures seen { self.new.seen ≡ self.old.seen }
    {
        let x = i as u32 + 1;
        let n = self.len;
        self.links[n] = x;
        if arcs[i][0] != 0 {
            self.chain(arcs[i][0], n);
            self.len = n + 1;
            self.used = n + 1;
            return left;
        }
        if left == 0 {
            return 0;
        }
        self.len = n + 1;
        self.spare = x;
        self.first = crate::or_else(self.first, x);
        left - 1
    }

    // Lists the arcs that leave a vertex with a mark, and unused rows from the lowest on, at most so many.
    pub fn list(&mut self, arcs: &[ArcRow], rows: usize)
        ensures near { Near arcs.now self.new }
        ensures seen { self.new.seen ≡ self.old.seen }
        ensures first { (k : ℕ) → k + 1 < self.new.first → unused (get_or arcs.now k []) ≡ false }
    {
        self.forget();
        if arcs.len() > ROW_LIMIT {
            return;
        }
        let mut marks = self.seen;
        marks[0] = true;
        no_chains(&mut self.links);
        let mut left = rows;
        let mut i = onward(arcs, &self.seen, &marks, left, 0);
        while i < arcs.len() {
            if self.len >= LISTED {
                self.forget();
                return;
            }
            left = self.meet(arcs, i, left);
            i = onward(arcs, &self.seen, &marks, left, i + 1);
        }
    }

    // ---- the lookup

    // Whether the list tells: its spare row is there and unused.
    fn tells(&self, arcs: &[ArcRow]) -> bool
        ensures { result ≡ true → Near arcs.now self.now → Telling arcs.now self.now }
    {
        self.len <= LISTED
            && arcs.len() <= ROW_LIMIT
            && self.spare != 0
            && rows::wide(self.spare) <= arcs.len()
            && rows::cell(arcs, self.spare, 0) == 0
    }

    // Whether every vertex of a list has a mark.
    fn all_marked(&self, list: Links) -> bool
        ensures { result ≡ true → AllMarked self.now.seen (list_of list) }
    {
        list.at[..list.len.min(RING)]
            .iter()
            .all(|v| self.seen[rows::wide(*v) % MARKS])
    }

    // The arc from a to b among the links that are chained.
    // Kept: it follows places from one to the one before, and is no index loop.
    fn arc_chained(&self, arcs: &[ArcRow], a: u32, b: u32) -> u32
        requires { (self.now.chained ≤ 1024) × Chained arcs.now self.now.links self.now.chained }
        ensures { (a ≡ 0 → result ≡ 0) × ((a ≡ 0 → ⊥) → Least arcs.now a b (take self.now.chained self.now.links) result) }
    {
        if a == 0 {
            return 0;
        }
        let mut m: u32 = 0;
        let mut k = rows::wide(self.links[2 * LISTED + rows::wide(a) % CHAINS]);
        while k != 0 {
            m = lesser(arcs, a, b, m, self.links[k - 1]);
            k = rows::wide(self.links[LISTED + (k - 1)]);
        }
        m
    }

    // Whether the lookup ends at place k: its row is unused, and only rows that new arcs take one after the other are listed from there on.
    fn ended(&self, arcs: &[ArcRow], k: usize) -> bool
        requires { k < 1024 }
        ensures { result ≡ true → (self.now.used ≤ k) × (cell arcs.now (get_or self.now.links k 0) 0 ≡ 0) }
    {
        k >= self.used && rows::cell(arcs, self.links[k], 0) == 0
    }

    // The arc from a to b, where the list tells and a has a mark: first among the links that are chained, then among the others.
    fn arc_listed(&self, arcs: &[ArcRow], a: u32, b: u32) -> u32
        requires { Telling arcs.now self.now × (is_marked self.now.seen a ≡ true) }
        ensures { result ≡ arc_between arcs.now a b }
    {
        if a == 0 {
            return 0;
        }
        let mut m = self.arc_chained(arcs, a, b);
        for k in self.chained..self.len {
            if self.ended(arcs, k) {
                return m;
            }
            m = lesser(arcs, a, b, m, self.links[k]);
        }
        m
    }

    // The arcs of n pairs in order, by the first links, which are chained. Pair i runs from from[i] to to[i].
    fn arcs_chained(
        &self,
        arcs: &[ArcRow],
        from: &[u32; RING],
        to: &[u32; RING],
        n: usize,
    ) -> [u32; RING]
        requires { (n ≤ 64) × ((self.now.chained ≤ 1024) × Chained arcs.now self.now.links self.now.chained) }
        ensures { Sought arcs.now from.now to.now n (take self.now.chained self.now.links) result }
    {
        let mut at = [0u32; RING];
        for i in 0..n {
            at[i] = self.arc_chained(arcs, from[i], to[i]);
        }
        at
    }

    // The arcs of all pairs in order, where the list tells and all vertices have marks: first those that are chained, then the others in one pass.
    // Only an arc whose source may be one of the vertices is compared with the pairs.
    fn listed<F: Fn(u32) -> bool>(&self, arcs: &[ArcRow], per: Links, may_leave: F) -> Links
        requires told { Telling arcs.now self.now × AllMarked self.now.seen (list_of per) }
        requires calls { F.IsAlwaysCallable may_leave }
        requires leaves { (i : ℕ) → i < length (list_of per) → F.post may_leave (get_or (list_of per) i 0) false → ⊥ }
        ensures { result ≡ links_of (arcs_of arcs.now (list_of per)) }
    {
        let len = per.len.min(RING);
        let to = ends(per);
        let mut at = self.arcs_chained(arcs, &per.at, &to, len);
        for k in self.chained..self.len {
            let x = self.links[k];
            let s = rows::cell(arcs, x, 0);
            if s == 0 {
                if k >= self.used {
                    return Links { at, len };
                }
            } else if may_leave(s) {
                note_listed(&mut at, &per.at, &to, len, s, rows::cell(arcs, x, 1), x);
            }
        }
        Links { at, len }
    }

    // The arcs of all pairs in order, 0 for none: by the list where it tells, else by a pass.
    pub fn perimeter_arcs(&self, arcs: &[ArcRow], per: Links) -> Links
        requires { Near arcs.now self.now }
        ensures { result ≡ links_of (arcs_of arcs.now (list_of per)) }
    {
        if !self.tells(arcs) || !self.all_marked(per) {
            return crate::perimeter_arcs(arcs, per);
        }
        if lists::size(per) <= 4 {
            return self.listed(arcs, per, |s| of_four(&per.at, s));
        }
        let seen = crate::marks(per);
        self.listed(arcs, per, |s| seen[rows::wide(s) % MARKS])
    }

    // The arc from a to b in the same way.
    pub fn arc_between(&self, arcs: &[ArcRow], a: u32, b: u32) -> u32
        requires { Near arcs.now self.now }
        ensures { result ≡ arc_between arcs.now a b }
    {
        if self.tells(arcs) && self.seen[rows::wide(a) % MARKS] {
            return self.arc_listed(arcs, a, b);
        }
        rows::find_arc(arcs, a, b)
    }
}
