// The texts of a line that is asked and of the answer that is wanted.

ghost use Rattle.std.specs.Prelude.{◌≤◌, length};

use crate::asked::{Asked, Way};
use script::texts;

pub const ROOM: usize = 1024;

// A space and a number, where there is room.
fn put_number(text: &mut [u8], at: usize, n: u32) -> usize
    requires at_bound { at ≤ 1024 }
    requires in_bounds { 1024 ≤ length text.old }
    ensures { result ≤ 1024 }
{
    if at > 1000 {
        return at;
    }
    texts::put_spaced(text, at, n)
}

// The number after this one, short of the ends.
fn stepped(n: u32, way: Way) -> u32 {
    match way {
        Way::Same => n,
        Way::Up => n.saturating_add(1),
        Way::Down => n.saturating_sub(1),
    }
}

// So many numbers from one on, each a step from the one before.
fn put_numbers(text: &mut [u8], start: usize, from: u32, count: u32, way: Way) -> usize
    requires start_bound { start ≤ 1024 }
    requires in_bounds { 1024 ≤ length text.old }
    ensures { result ≤ 1024 }
{
    let mut at = start;
    let mut n = from;
    for _ in 0..count {
        at = put_number(text, at, n);
        n = stepped(n, way);
    }
    at
}

// The line, without a newline.
pub fn put_line(text: &mut [u8], a: Asked) -> usize
    requires { 1024 ≤ length text.old }
    ensures { result ≤ 1024 }
{
    let way = a.way;
    let letter = texts::put_byte(text, 0, a.letter);
    let at = put_number(text, letter, a.first);
    put_numbers(text, at, a.from, a.count, way)
}

// `ok` or `no`, and the number.
fn put_answer(text: &mut [u8], answer: Result<u32, u32>) -> usize
    requires { 1024 ≤ length text.old }
    ensures { result ≤ 13 }
{
    match answer {
        Ok(n) => {
            let word = texts::put_two(text, 0, b'o', b'k');
            texts::put_spaced(text, word, n)
        }
        Err(n) => {
            let word = texts::put_two(text, 0, b'n', b'o');
            texts::put_spaced(text, word, n)
        }
    }
}

// The answer that is wanted, with its newline.
pub fn put_wanted(text: &mut [u8], a: Asked) -> usize
    requires { 1024 ≤ length text.old }
    ensures { result ≤ 1024 }
{
    let last = put_answer(text, a.answer);
    texts::put_byte(text, last, b'\n')
}
