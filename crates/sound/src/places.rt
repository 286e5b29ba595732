// Positions, passed over by blocks of eight rows, all tests of a block put together, so that there is no branch for each row. It carries
// document 01's "every coordinate is finite" and, for positions, "unused rows are zero".

ghost use Rattle.std.specs.Prelude.{◌≡◌, true, ◌+◌, ◌≤◌, length};
ghost use Rattle.sound.specs.Parts.{Placed, PlacedTo};

use crate::blanks;
use rules::{PositionRow, VertexRow};

// Whether the eight rows from i on are vertices, with finite coordinates.
fn block_used(vertices: &[VertexRow], positions: &[PositionRow], i: usize) -> bool
    requires { (i + 8 ≤ length vertices.now) × (i + 8 ≤ length positions.now) }
    ensures { result ≡ true → Placed vertices.now positions.now i → Placed vertices.now positions.now (i + 8) }
{
    let mut all = true;
    for k in 0..8 {
        all = all & ((vertices[i + k][0] != 0) & blanks::finite_row(positions[i + k]));
    }
    all
}

// Whether the eight rows from i on pass, vertices or not.
// Kept: one function over the test of a row was tried, and is no plainer: it asks three things of the test, more than the two loops say.
fn block_passes(vertices: &[VertexRow], positions: &[PositionRow], i: usize) -> bool
    requires { (i + 8 ≤ length vertices.now) × (i + 8 ≤ length positions.now) }
    ensures { result ≡ true → Placed vertices.now positions.now i → Placed vertices.now positions.now (i + 8) }
{
    let mut all = true;
    for k in 0..8 {
        all = all & blanks::place_row(vertices[i + k][0] != 0, positions[i + k]);
    }
    all
}

// Goes over the first n rows by blocks of vertices: the row where it stops.
fn skip_used(vertices: &[VertexRow], positions: &[PositionRow], n: usize) -> usize
    requires { (n ≤ length vertices.now) × (n ≤ length positions.now) }
    ensures { PlacedTo vertices.now positions.now n result }
{
    let mut i = 0;
    // Kept: a `for` over the number of the block is no plainer: the row has to be worked out from it, in the loop and after it.
    while n - i >= 8 {
        if !block_used(vertices, positions, i) {
            return i;
        }
        i += 8;
    }
    i
}

// Goes on from a row by blocks that pass.
fn skip_passed(vertices: &[VertexRow], positions: &[PositionRow], n: usize, from: usize) -> usize
    requires { (n ≤ length vertices.now) × ((n ≤ length positions.now) × PlacedTo vertices.now positions.now n from) }
    ensures { PlacedTo vertices.now positions.now n result }
{
    let mut i = from;
    // Kept: a `for` over the number of the block is no plainer, as in skip_used.
    while n - i >= 8 {
        if !block_passes(vertices, positions, i) {
            return i;
        }
        i += 8;
    }
    i
}

// A row before which all rows pass: the vertices come first in most tables, and in their blocks less is to be tested.
pub fn skip_placed(vertices: &[VertexRow], positions: &[PositionRow]) -> usize
    ensures { PlacedTo vertices.now positions.now (length positions.now) result }
{
    let n = vertices.len().min(positions.len());
    skip_passed(vertices, positions, n, skip_used(vertices, positions, n))
}
