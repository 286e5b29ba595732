// The lowest unused row, looked for from a row on before which every row is used. It carries document 01's "a new record takes the lowest
// unused row": a record that is made after another need not look again at the rows before the other's. Blocks of used rows are passed over
// first.

ghost use Rattle.std.specs.Prelude.{◌≡◌, ◌<◌};
ghost use Rattle.rules.specs.Table.{free_row};
ghost use Rattle.edges.specs.Free.{UsedBefore};

use crate::blocks;
use tables::rows::ROW_LIMIT;
// Links of rows before which every row is used, 0 where nothing is known: the default.
// Kept: links as rows hold them; 0, where nothing is known, is also the first row to look from.
#[derive(Clone, Copy, Default)]
pub struct Lowest {
    pub arc: u32,
    pub edge: u32,
    pub face: u32,
}

// The lowest unused row of a table.
pub fn free_row<const N: usize>(rows: &[[u32; N]], from: u32) -> u32
    requires cells { 0 < N }
    requires used_before { UsedBefore rows.now from }
    ensures { result ≡ free_row rows.now }
{
    if rows.len() > ROW_LIMIT {
        return 0;
    }
    let start = (from as usize).saturating_sub(1);
    for i in blocks::skip(rows, start)..rows.len() {
        if rows[i][0] == 0 {
            return i as u32 + 1;
        }
    }
    0
}
