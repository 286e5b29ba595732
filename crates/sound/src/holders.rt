// Arc rows that hold a face, passed over by blocks of eight: one turn of the loop for eight rows, and nothing counted row by row.

ghost use Rattle.std.specs.Prelude.{◌≡◌, true, ◌+◌, ◌≤◌, length};
ghost use Rattle.proved.specs.Demand.{holds_some};
ghost use Rattle.sound.specs.Parts.{AllHold, HeldTo};

use rules::ArcRow;

// Whether a row is an arc that holds a face.
pub fn holds_some(row: ArcRow) -> bool
    ensures { result ≡ holds_some row }
{
    (row[0] != 0) & (row[4] != 0)
}

// Whether the eight rows from i on all hold a face.
fn block_holds(arcs: &[ArcRow], i: usize) -> bool
    requires { i + 8 ≤ length arcs.now }
    ensures { result ≡ true → AllHold arcs.now i (i + 8) }
{
    let mut all = true;
    for k in 0..8 {
        all = all & holds_some(arcs[i + k]);
    }
    all
}

// Goes on from a row by whole blocks that hold faces: the row where it stops.
fn skip_blocks(arcs: &[ArcRow], from: usize) -> usize
    requires { from ≤ length arcs.now }
    ensures { HeldTo arcs.now from result }
{
    let mut i = from;
    // Kept: a `for` over the number of the block is no plainer: the row has to be worked out from it, in the loop and after it.
    while arcs.len() - i >= 8 {
        if !block_holds(arcs, i) {
            return i;
        }
        i += 8;
    }
    i
}

// Goes on from a row to the first that holds no face.
fn skip_rows(arcs: &[ArcRow], from: usize) -> usize
    requires { from ≤ length arcs.now }
    ensures { HeldTo arcs.now from result }
{
    for i in from..arcs.len() {
        if !holds_some(arcs[i]) {
            return i;
        }
    }
    arcs.len()
}

// The first row from here on that holds no face, by blocks as far as they hold faces.
pub fn skip_held(arcs: &[ArcRow], from: usize) -> usize
    requires { from ≤ length arcs.now }
    ensures { HeldTo arcs.now from result }
{
    skip_rows(arcs, skip_blocks(arcs, from))
}
