// Rows that are zero already, passed over by blocks of eight before a table is zeroed: a table of a room that a call has kept nothing in is
// zero from the call before, and reading it costs less than writing it. The tests of a block are put together, so that there is no branch for each row.

ghost use Rattle.std.specs.Prelude.{◌≡◌, true, ◌+◌, ◌≤◌, length, replicate};
ghost use Rattle.tables.specs.Sets.{ZeroRows, ZeroTo};

// Whether every cell of a row is zero.
// Kept: no branch for each row: `all` stops at the first that fails, and the tests of a block are to be put together.
fn zero_row<const N: usize>(row: &[u32; N]) -> bool
    ensures { result ≡ true → row.now ≡ replicate N 0 }
{
    let mut zero = true;
    for x in row {
        zero = zero & (*x == 0);
    }
    zero
}

// Whether the eight rows from i on are zero.
fn zero_block<const N: usize>(t: &[[u32; N]], i: usize) -> bool
    requires { i + 8 ≤ length t.now }
    ensures { result ≡ true → ZeroRows N t.now i (i + 8) }
{
    let mut zero = true;
    for k in 0..8 {
        zero = zero & zero_row(&t[i + k]);
    }
    zero
}

// Goes on from the first row by whole blocks of zero rows: the row where it stops.
// Kept: it steps by eight and answers the row where it stops; a `for` over blocks would have to work the row out twice.
pub fn skip<const N: usize>(t: &[[u32; N]]) -> usize
    ensures { ZeroTo N t.now result }
{
    let mut i: usize = 0;
    while t.len() - i >= 8 {
        if !zero_block(t, i) {
            return i;
        }
        i += 8;
    }
    i
}
