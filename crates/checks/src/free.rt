// Whether a table has as many free rows as are needed. It carries document 01's "free rows fewer than the edit's need". New records take the
// lowest free rows, so the free rows are mostly the last: they are counted from the end, and no further than the need.

ghost use Rattle.std.specs.Prelude.{◌≡◌, leb, length, take, filter, reverse, min};
ghost use Rattle.rules.specs.Table.{count, unused};

// Whether a row is free: its first cell is 0.
fn is_free<const N: usize>(row: &[u32; N]) -> bool
    ensures { result ≡ unused row.now }
{
    match row.first() {
        Some(first) => *first == 0,
        None => true,
    }
}

// How many free rows there are from the end on, and no more than are needed.
fn free_from_end<const N: usize>(t: &[[u32; N]], need: usize) -> usize
    ensures { result ≡ length (take need (filter unused (reverse t.now))) }
{
    t.iter()
        .rev()
        .filter(
            |row| -> bool
                ensures { result ≡ unused row.now.now }
            { is_free(row) },
        )
        .take(need)
        .count()
}

pub fn enough<const N: usize>(t: &[[u32; N]], need: usize) -> bool
    ensures { result ≡ leb need (count unused t.now) }
{
    free_from_end(t, need) == need
}
