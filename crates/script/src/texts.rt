// What is written: a number's decimal digits, the line that answers an edit, and the last line, into a buffer from a place on.
// It carries document 01's "It prints `ok` with the keys returned (the mark for `r`, none for `b`) or `no` with the number, and last
// `end` with the counts of vertices, edges, faces". A line takes at most 64 bytes, and what stands before and behind it stays.

ghost use Rattle.std.specs.Prelude.{◌≡◌, [], ◌∷◌, ◌+◌, ◌≤◌, ◌<◌, length};
ghost use Rattle.rules.specs.Script.{decimal, spaced};
ghost use Rattle.rules.specs.Lent.{answered};
ghost use Rattle.script.specs.Texts as T;

use crate::Words;
use rules::{Edit, Refusal, Told};

// ---- bytes and numbers

// One byte.
pub fn put_byte(out: &mut [u8], at: usize, b: u8) -> usize
    requires { at < length out.old }
    ensures result_after { T.written out.new result ≡ T.wrote out.old at (b ∷ []) }
    ensures next { result ≡ at + 1 }
{
    out[at] = b;
    at + 1
}

// Two bytes.
pub fn put_two(out: &mut [u8], at: usize, a: u8, b: u8) -> usize
    requires { at + 2 ≤ length out.old }
    ensures result_after { T.written out.new result ≡ T.wrote out.old at (a ∷ b ∷ []) }
    ensures next { result ≡ at + 2 }
{
    out[at] = a;
    out[at + 1] = b;
    at + 2
}

// The decimal digits of a number: those of its tenth, and then the last one.
pub fn put_decimal(out: &mut [u8], at: usize, n: u32) -> usize
    requires { at + length (decimal n) ≤ length out.old }
    ensures { T.written out.new result ≡ T.wrote out.old at (decimal n) }
{
    if n < 10 {
        return put_byte(out, at, b'0' + n as u8);
    }
    let next = put_decimal(out, at, n / 10);
    put_byte(out, next, b'0' + (n % 10) as u8)
}

// A space, and a number.
pub fn put_spaced(out: &mut [u8], at: usize, n: u32) -> usize
    requires { at + 11 ≤ length out.old }
    ensures result_after { T.written out.new result ≡ T.wrote out.old at (spaced (n ∷ [])) }
    ensures short { result ≤ at + 11 }
{
    let next = put_byte(out, at, b' ');
    put_decimal(out, next, n)
}

// ---- what is told of an answer

// All of it.
fn words_of(answer: Result<Told, Refusal>) -> Words
    ensures { result ≡ T.words_of (answered answer) }
{
    match answer {
        Ok(Told::Key(k)) => Words::One(k),
        Ok(Told::Arc(s, d)) => Words::Two(s, d),
        Ok(Told::Mark(m)) => Words::One(m),
        Ok(Told::Arity(n)) => Words::One(n),
        Ok(Told::Done) => Words::Bare,
        Err(r) => Words::No(tables::answers::number_of(r)),
    }
}

// With the numbers left out.
fn bare(w: Words) -> Words
    ensures { result ≡ T.bare_of w }
{
    match w {
        Words::No(n) => Words::No(n),
        Words::Bare => Words::Bare,
        Words::One(_) => Words::Bare,
        Words::Two(_, _) => Words::Bare,
    }
}

// None are shown for `b`.
fn shows_keys(e: Edit) -> bool
    ensures { result ≡ T.shows_keys e }
{
    match e {
        Edit::VertexInsert(_) => true,
        Edit::FaceInsert(_) => true,
        Edit::FaceRemove(_) => true,
        Edit::FaceSplit(_, _, _) => true,
        Edit::FacePoke(_, _) => true,
        Edit::FaceBridge(_, _) => false,
        Edit::FaceExtrude(_, _) => true,
        Edit::ArcBridge(_, _, _, _) => true,
        Edit::ArcExtrude(_, _, _) => true,
    }
}

// What is shown after an edit.
fn shown_words(e: Edit, answer: Result<Told, Refusal>) -> Words
    ensures { result ≡ T.shown_words e (answered answer) }
{
    let all = words_of(answer);
    if shows_keys(e) {
        return all;
    }
    bare(all)
}

// ---- lines

// `no` with the number, or `ok` with the numbers shown.
fn put_words(out: &mut [u8], at: usize, w: Words) -> usize
    requires { at + 24 ≤ length out.old }
    ensures result_after { T.written out.new result ≡ T.wrote out.old at (T.words_text w) }
    ensures short { result ≤ at + 24 }
{
    match w {
        Words::No(n) => {
            let next = put_two(out, at, b'n', b'o');
            put_spaced(out, next, n)
        }
        Words::Bare => put_two(out, at, b'o', b'k'),
        Words::One(a) => {
            let next = put_two(out, at, b'o', b'k');
            put_spaced(out, next, a)
        }
        Words::Two(a, b) => {
            let next = put_two(out, at, b'o', b'k');
            let more = put_spaced(out, next, a);
            put_spaced(out, more, b)
        }
    }
}

// The line that answers an edit.
pub fn put_answer(out: &mut [u8], at: usize, e: Edit, answer: Result<Told, Refusal>) -> usize
    requires { at + 64 ≤ length out.old }
    ensures result_after { T.written out.new result ≡ T.wrote out.old at (T.answer_line e (answered answer)) }
    ensures short { result ≤ at + 64 }
{
    let next = put_words(out, at, shown_words(e, answer));
    put_byte(out, next, b'\n')
}

// The line that answers a line that can't be read: 2, for an argument.
pub fn put_unreadable(out: &mut [u8], at: usize) -> usize
    requires { at + 64 ≤ length out.old }
    ensures result_after { T.written out.new result ≡ T.wrote out.old at T.unreadable_line }
    ensures short { result ≤ at + 64 }
{
    let next = put_words(out, at, Words::No(2));
    put_byte(out, next, b'\n')
}

// Three numbers, each after a space.
pub fn put_three(out: &mut [u8], at: usize, a: u32, b: u32, c: u32) -> usize
    requires { at + 33 ≤ length out.old }
    ensures result_after { T.written out.new result ≡ T.wrote out.old at (spaced (a ∷ b ∷ c ∷ [])) }
    ensures short { result ≤ at + 33 }
{
    let second = put_spaced(out, at, a);
    let third = put_spaced(out, second, b);
    put_spaced(out, third, c)
}

// The last line, `end` with the counts of vertices, edges, faces.
pub fn put_end(out: &mut [u8], at: usize, v: u32, e: u32, f: u32) -> usize
    requires { at + 64 ≤ length out.old }
    ensures result_after { T.written out.new result ≡ T.wrote out.old at (T.end_line v e f) }
    ensures short { result ≤ at + 64 }
{
    let word = put_two(out, at, b'e', b'n');
    let counts = put_byte(out, word, b'd');
    let last = put_three(out, counts, v, e, f);
    put_byte(out, last, b'\n')
}
