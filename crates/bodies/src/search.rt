// The record that has a key, found by halving among the file's own records, whose keys rise. Request L3: "Row places are not written", so names are keys; a
// name that no record has becomes a link that no table has.

ghost use mathlib.Core.Path.{◌≡◌};
ghost use Prim.Native.Nat.{◌≤◌, ◌<◌};
ghost use Rattle.std.specs.Option.{IfSome};
ghost use Rattle.rules.specs.Table.{first_row};
ghost use Rattle.file.specs.File.{contents_in, or_nowhere, by_key, by_ends};
ghost use Rattle.bodies.specs.Bodies.{records_in, has_number, link_of};
ghost use Rattle.bodies.specs.Kinds.{number};

use crate::kinds::Kind;
use crate::records::WholeFile;

const NOWHERE: u32 = 16385;

// Where to look next for a key that stands from low on, before high: at the guess, if it is there, else in the middle.
fn probe(low: usize, high: usize, guess: usize) -> usize
    requires { low < high }
    ensures { (low ≤ result) × (result < high) }
{
    if low <= guess && guess < high {
        guess
    } else {
        low + (high - low) / 2
    }
}

// The place of the record of a kind whose key is that number. It is looked for at the guess first, then in longer and longer steps from there, and by halving
// what is left; the guess decides how soon it is found, not what is.
fn find(whole: WholeFile, kind: Kind, key: u64, first: usize) -> Option<usize>
    ensures found { link_of result ≡ first_row (has_number (number kind) key) (records_in whole.entry.file.text.now (number kind)) }
    ensures few { IfSome result (λ i. i < 4294967295) }
{
    let mut low = 0;
    let mut high = whole.file.count(kind);
    let mut guess = first;
    let mut step: usize = 1;
    while low < high {
        let middle = probe(low, high, guess);
        step = step.saturating_mul(2);
        let here = whole.file.key_number(kind, middle);
        if here == key {
            return Some(middle);
        }
        if here < key {
            low = middle + 1;
            guess = middle.saturating_add(step);
        } else {
            high = middle;
            guess = middle.saturating_sub(step);
        }
    }
    None
}

// The link of the record at a place that was found, or one that no table has.
fn link(found: Option<usize>) -> u32
    requires { IfSome found (λ i. i < 4294967295) }
    ensures { result ≡ or_nowhere (link_of found) }
{
    match found {
        Some(place) => place as u32 + 1,
        None => NOWHERE,
    }
}

// The link of the vertex, the edge or the face with that key. Where no key is missing it stands in the row of its key.
pub fn by_key(whole: WholeFile, kind: Kind, key: u32) -> u32
    requires { number kind ≡ 1 → ⊥ }
    ensures { result ≡ by_key (contents_in whole.entry.file.text.now) (number kind) key }
{
    link(find(whole, kind, u64::from(key), key as usize))
}

// The link of the arc with those ends, looked for at a guess first: of an arc of the same source, say.
pub fn by_ends(whole: WholeFile, source: u32, destination: u32, guess: usize) -> u32
    ensures { result ≡ by_ends (contents_in whole.entry.file.text.now) source destination }
{
    let number = u64::from(source) * 4294967296 + u64::from(destination);
    link(find(whole, Kind::Arcs, number, guess))
}
