// Links of one record to another. It carries document 01's "a leading arc, unless none, exists and leaves its vertex; next of (a,b), unless
// none, exists and leaves b, previous, unless none, exists and arrives at a".

ghost use Rattle.std.specs.Prelude.{◌≡◌, ◌&&◌, eqb};
ghost use Rattle.rules.specs.Table.{cell, there};
ghost use Rattle.sound.specs.Tests.{leads_row, next_row, previous_row, loose_row};

use rules::{ArcRow, VertexRow};
use tables::rows;

// Whether an arc exists and has the value in the cell.
pub fn arc_has(arcs: &[ArcRow], x: u32, c: usize, value: usize) -> bool
    ensures { result ≡ (there arcs.now x && eqb (cell arcs.now x c) value) }
{
    rows::cell(arcs, x, 0) != 0 && rows::wide(rows::cell(arcs, x, c)) == value
}

// ---- one row: an unused row passes

// A leading arc, unless none, exists and leaves its vertex.
// Kept: one phrase of document 01 each, and a definition each (specs): they differ in which cell names the arc, which of its ends is asked and whose.
pub fn leads_row(arcs: &[ArcRow], row: VertexRow, v: usize) -> bool
    ensures { result ≡ leads_row arcs.now row v }
{
    if row[0] == 0 || row[1] == 0 {
        return true;
    }
    arc_has(arcs, row[1], 0, v)
}

// Next of (a,b), unless none, exists and leaves b.
pub fn next_row(arcs: &[ArcRow], row: ArcRow) -> bool
    ensures { result ≡ next_row arcs.now row }
{
    if row[0] == 0 || row[2] == 0 {
        return true;
    }
    arc_has(arcs, row[2], 0, rows::wide(row[1]))
}

// Previous of (a,b), unless none, exists and arrives at a.
pub fn previous_row(arcs: &[ArcRow], row: ArcRow) -> bool
    ensures { result ≡ previous_row arcs.now row }
{
    if row[0] == 0 || row[3] == 0 {
        return true;
    }
    arc_has(arcs, row[3], 1, rows::wide(row[0]))
}

// Both, of an arc without a face. Those of an arc with a face are tested on the face's ring.
pub fn loose_row(arcs: &[ArcRow], row: ArcRow) -> bool
    ensures { result ≡ loose_row arcs.now row }
{
    row[4] != 0 || (next_row(arcs, row) && previous_row(arcs, row))
}
