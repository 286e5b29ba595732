// Used rows passed over by blocks of eight. The tests of a block are put together, so that there is no branch for each row.

ghost use Rattle.std.specs.Prelude.{◌≡◌, true, ◌+◌, ◌≤◌, ◌<◌, length};
ghost use Rattle.edges.specs.Free.{UsedRows, UsedUpTo};

// Whether the eight rows from i on are used.
fn used_block<const N: usize>(rows: &[[u32; N]], i: usize) -> bool
    requires cells { 0 < N }
    requires block { i + 8 ≤ length rows.now }
    ensures { result ≡ true → UsedRows rows.now i (i + 8) }
{
    let mut used = true;
    for k in 0..8 {
        used &= rows[i + k][0] != 0;
    }
    used
}

// Goes on from a row by whole blocks of used rows: the row where it stops.
pub fn skip<const N: usize>(rows: &[[u32; N]], from: usize) -> usize
    requires cells { 0 < N }
    requires start { from ≤ length rows.now }
    ensures { UsedUpTo rows.now from result }
{
    let mut i = from;
    // Kept: it steps by eight and answers where it stops; as chunks that are counted, the count has to be turned back into a row, no plainer.
    while rows.len() - i >= 8 {
        if !used_block(rows, i) {
            return i;
        }
        i += 8;
    }
    i
}
