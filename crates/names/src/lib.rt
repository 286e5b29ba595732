// Whether the names in a list differ, where 0 is no name: the keys of a table plus one, or the pairs that its edges join.
// It carries document 01's "keys in a table differ" and "no two edges join the same pair".
// Names that rise from row to row differ. Else names are gone through in two parts, which takes half the slots: a name is of one part or the other.
// Each row of a part is put into the slot that its name gives, or into the next free one, where the name finds it: a row that its own name finds
// is the only one with that name. Where a name finds another row first, or too many slots are taken, a name that finds another row stands twice,
// however the slots were filled; where that does not tell, names are compared one by one.

#![tactic(auto)]

ghost use Rattle.std.specs.Prelude.{◌≡◌, true, false, not, ◌||◌, ◌+◌, ◌≤◌, ◌<◌, get_or, eqb, ltb};
ghost use Rattle.rules.specs.Table.{all_below, or_else};
ghost use Rattle.names.specs.Names.{alone, differ, pair_name};
ghost use Rattle.names.specs.Rising.{rises};
ghost use Rattle.names.specs.Slots.{slot_of, slot_after, part_of, passed_by, name_of, link_of, look_in, EndsAt, SeatIf, finds, single};
ghost use Rattle.names.specs.Verdicts.{Shows};

// The most rows that a list of names has: as many as the largest table with keys.
// Kept: fixed memory: a list has places for the largest table, on the stack, and n of them count; slots and rows are bounded by the same number.
pub const ROWS: usize = 8192;

// Kept: fixed memory: a slot is two bytes, a row plus one, or 0 where it is free; an option for each would take twice the room.
const SLOTS: usize = 8192;

// As many slots as are tried for a name.
const TRIES: usize = 128;

// ---- pairs

// A pair of vertices as one number, the same for both orders.
pub fn pair_name(a: u32, b: u32) -> u32
    ensures { result ≡ pair_name a b }
{
    a.min(b) % 8192 * 8192 + a.max(b) % 8192
}

// ---- rising

// Whether a name may follow the last that was not 0.
pub fn follows(last: u32, name: u32) -> bool
    ensures { result ≡ (eqb name 0 || ltb last name) }
{
    name == 0 || last < name
}

// The name, or the one before where it is 0.
pub fn or_last(name: u32, last: u32) -> u32
    ensures { result ≡ or_else name last }
{
    if name == 0 { last } else { name }
}

// Whether the names rise.
// Kept: the last name is carried from row to row, which `all` doesn't do.
fn rising(names: &[u32; ROWS], n: usize) -> bool
    requires { n ≤ 8192 }
    ensures { result ≡ all_below (rises names.now) n }
{
    let mut last = 0;
    for i in 0..n {
        if !follows(last, names[i]) {
            return false;
        }
        last = or_last(names[i], last);
    }
    true
}

// ---- slots

// The slot that a name gives. The factor spreads rows of keys, and the pairs of meshes that were built row by row.
fn slot_of(name: u32) -> usize
    ensures { result ≡ slot_of name }
{
    (name as u64 * 3645161217 / 4194304 % 8192) as usize
}

// The part that a name is of, 0 or 1. Names that follow one another are mostly of one part, which a processor guesses well.
fn part_of(name: u32) -> usize
    ensures { result ≡ part_of name }
{
    (name / 64 % 2) as usize
}

// Whether a part has nothing to do with a name: it is none, or of the other part.
fn passed_by(part: usize, name: u32) -> bool
    ensures { result ≡ passed_by part name }
{
    name == 0 || part_of(name) != part
}

fn slot_after(slot: usize) -> usize
    requires { slot < 8192 }
    ensures { result ≡ slot_after slot }
{
    (slot + 1) % SLOTS
}

// The name in a row, by its link.
fn name_of(names: &[u32; ROWS], row: u16) -> u32
    ensures { result ≡ name_of names.now row }
{
    if row == 0 || row > 8192 {
        return 0;
    }
    names[row as usize - 1]
}

// The slot where the search for a name ends: the first from its own on that is free, or has a row with the name. It is none where all
// that are tried have other names.
fn end_of(slots: &[u16; SLOTS], names: &[u32; ROWS], name: u32) -> Option<usize>
    ensures { EndsAt slots.now names.now name result }
{
    let mut slot = slot_of(name);
    for _ in 0..TRIES {
        let row = slots[slot];
        if row == 0 || name_of(names, row) == name {
            return Some(slot);
        }
        slot = slot_after(slot);
    }
    None
}

// The row that a name finds.
fn look(slots: &[u16; SLOTS], names: &[u32; ROWS], name: u32) -> Option<usize>
    ensures { link_of result ≡ look_in slots.now names.now name }
{
    let slot = end_of(slots, names, name)?;
    let row = slots[slot] as usize;
    row.checked_sub(1)
}

// A free slot where a row with the name would be found. There is none where another row has the name, or too many slots are taken.
fn seat(slots: &[u16; SLOTS], names: &[u32; ROWS], name: u32) -> Option<usize>
    ensures { SeatIf slots.now names.now name result }
{
    let slot = end_of(slots, names, name)?;
    if slots[slot] == 0 { Some(slot) } else { None }
}

// Puts a row of the part, plus one, into a slot where its name finds it, if there is one. The rows before are still found.
// Kept: each row writes a slot, so the loop stops at the first that has none; the library's `all` is for tests that write nothing.
fn seated(slots: &mut [u16; SLOTS], names: &[u32; ROWS], i: usize, part: usize) -> bool
    requires { i < 8192 }
    ensures { result ≡ true → all_below (finds slots.old names.now part) i ≡ true →
        all_below (finds slots.new names.now part) (i + 1) ≡ true }
{
    let name = names[i];
    if passed_by(part, name) {
        return true;
    }
    let Some(slot) = seat(slots, names, name) else {
        return false;
    };
    slots[slot] = (i + 1) as u16;
    true
}

// Puts each row of a part into a slot: whether each of their names then finds its own row.
fn all_seated(slots: &mut [u16; SLOTS], names: &[u32; ROWS], n: usize, part: usize) -> bool
    requires { n ≤ 8192 }
    ensures { result ≡ true → all_below (finds slots.new names.now part) n ≡ true }
{
    for row in 0..n {
        if !seated(slots, names, row, part) {
            return false;
        }
    }
    true
}

// Whether a row's name finds no other row of the first n that has the same.
fn single_at(slots: &[u16; SLOTS], names: &[u32; ROWS], n: usize, i: usize) -> bool
    requires { (n ≤ 8192) × (i < 8192) }
    ensures { result ≡ single slots.now names.now n i }
{
    let name = names[i];
    if name == 0 {
        return true;
    }
    let Some(row) = look(slots, names, name) else {
        return true;
    };
    if row == i || row >= n {
        return true;
    }
    names[row] != name
}

// A name that finds another row with that name tells at once that names do not differ.
fn no_twin(slots: &[u16; SLOTS], names: &[u32; ROWS], n: usize) -> bool
    requires { n ≤ 8192 }
    ensures { result ≡ all_below (single slots.now names.now n) n }
{
    (0..n).all(|i| single_at(slots, names, n, i))
}

// ---- one by one

// Whether no row before has the name of this one.
fn first_with(names: &[u32; ROWS], i: usize) -> bool
    requires { i < 8192 }
    ensures { result ≡ all_below (λ j. not (eqb (get_or names.now j 0) (get_or names.now i 0))) i }
{
    !names[..i].contains(&names[i])
}

// Whether a row has no name, or no row before has the same.
fn alone_at(names: &[u32; ROWS], i: usize) -> bool
    requires { i < 8192 }
    ensures { result ≡ alone names.now i }
{
    names[i] == 0 || first_with(names, i)
}

// Whether names differ, each compared with those before it.
fn compared(names: &[u32; ROWS], n: usize) -> bool
    requires { n ≤ 8192 }
    ensures { result ≡ differ names.now n }
{
    (0..n).all(|i| alone_at(names, i))
}

// ---- differ

// What the slots tell of a part: its names differ, a name stands twice, or neither.
#[derive(Clone, Copy, PartialEq, Eq)]
enum Verdict {
    Apart,
    Twice,
    Untold,
}

fn told_of(names: &[u32; ROWS], n: usize, part: usize) -> Verdict
    requires { n ≤ 8192 }
    ensures { Shows names.now n part result }
{
    let mut slots = [0u16; SLOTS];
    if all_seated(&mut slots, names, n, part) {
        return Verdict::Apart;
    }
    if no_twin(&slots, names, n) {
        Verdict::Untold
    } else {
        Verdict::Twice
    }
}

// By the slots, where the names do not rise: part by part, and one by one where that does not tell.
// Kept: the second part is gone through only where the first does not tell; as one expression of both, it would always be.
fn sorted_out(names: &[u32; ROWS], n: usize) -> bool
    requires { n ≤ 8192 }
    ensures { result ≡ differ names.now n }
{
    let first = told_of(names, n, 0);
    if first == Verdict::Twice {
        return false;
    }
    let second = told_of(names, n, 1);
    if second == Verdict::Twice {
        return false;
    }
    if first == Verdict::Apart && second == Verdict::Apart {
        return true;
    }
    compared(names, n)
}

// Whether no two of the first n rows have one name. More rows than there are have no answer.
pub fn names_differ(names: &[u32; ROWS], n: usize) -> bool
    ensures { n ≤ 8192 → result ≡ differ names.now n }
{
    n <= ROWS && (rising(names, n) || sorted_out(names, n))
}
