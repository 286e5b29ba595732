// Arc rows whose source has no mark, passed over by blocks of eight. The marks of a block are put together and tested once, so that there is no
// branch for each row.

ghost use Rattle.std.specs.Prelude.{◌≡◌, false, ◌+◌, ◌≤◌, length};
ghost use Rattle.pairs.specs.Pairs.{NoMarks, Reached};

use crate::MARKS;
use rules::ArcRow;
use tables::rows;

// Whether one of the eight rows from i on has a mark.
// Kept: no branch for each row: `any` stops at the first, and the marks of a block are put together.
fn block_marked(arcs: &[ArcRow], seen: &[bool; MARKS], i: usize) -> bool
    requires { i + 8 ≤ length arcs.now }
    ensures { result ≡ false → NoMarks arcs.now seen.now i (i + 8) }
{
    let mut marked = false;
    for k in 0..8 {
        marked |= seen[rows::wide(arcs[i + k][0]) % MARKS];
    }
    marked
}

// Goes on from a row by whole blocks without a mark: the row where it stops.
// Kept: it steps by eight and answers the row where it stops; a `for` over blocks would have to work the row out twice.
fn skip_blocks(arcs: &[ArcRow], seen: &[bool; MARKS], from: usize) -> usize
    requires { from ≤ length arcs.now }
    ensures { Reached arcs.now seen.now from result }
{
    let mut i = from;
    while arcs.len() - i >= 8 {
        if block_marked(arcs, seen, i) {
            return i;
        }
        i += 8;
    }
    i
}

// Goes on from a row to the first that has a mark.
fn skip_rows(arcs: &[ArcRow], seen: &[bool; MARKS], from: usize) -> usize
    requires { from ≤ length arcs.now }
    ensures { Reached arcs.now seen.now from result }
{
    for i in from..arcs.len() {
        if seen[rows::wide(arcs[i][0]) % MARKS] {
            return i;
        }
    }
    arcs.len()
}

// The first row from here on whose source has a mark, by blocks as far as they have none.
pub fn skip(arcs: &[ArcRow], seen: &[bool; MARKS], from: usize) -> usize
    requires { from ≤ length arcs.now }
    ensures { Reached arcs.now seen.now from result }
{
    skip_rows(arcs, seen, skip_blocks(arcs, seen, from))
}
