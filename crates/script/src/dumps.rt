// The records as text, as the comparison with the Rust prints them: a line for each record, links by keys, `-` for none (two for
// an arc), coordinates as their 64 bits in hexadecimal. A line takes at most 128 bytes. It carries the program meshdump, by which
// document 01's "Equality is at the module's functions" is compared record by record.

ghost use Rattle.std.specs.Prelude.{◌≡◌, [], ◌∷◌, ◌+◌, ◌≤◌, ◌<◌, length};
ghost use Rattle.std.specs.Float.{binary64};
ghost use Rattle.std.specs.Float.Ieee.{to_bits};
ghost use Rattle.rules.specs.Dump.{hex_digit, hex_before, bits_word};
ghost use Rattle.script.specs.Texts as T;
ghost use Rattle.script.specs.Dumps as D;

use crate::{Name, texts};
use rules::Position;
use tables::points;

// ---- words

// A hexadecimal digit.
fn hex_digit(d: u64) -> u8
    requires { d < 16 }
    ensures { result ≡ hex_digit d }
{
    if d < 10 {
        return b'0' + d as u8;
    }
    87 + d as u8
}

// So many hexadecimal digits of a number: those of its sixteenth, and then the last one.
fn put_hex(out: &mut [u8], at: usize, places: usize, n: u64) -> usize
    requires { at + places ≤ length out.old }
    ensures result_after { T.written out.new result ≡ T.wrote out.old at (hex_before places n []) }
    ensures next { result ≡ at + places }
{
    if places == 0 {
        return at;
    }
    let next = put_hex(out, at, places - 1, n / 16);
    texts::put_byte(out, next, hex_digit(n % 16))
}

// A coordinate's bits, after a space.
fn put_bits(out: &mut [u8], at: usize, x: f64) -> usize
    requires { at + 19 ≤ length out.old }
    ensures result_after { T.written out.new result ≡ T.wrote out.old at (bits_word x) }
    ensures next { result ≡ at + 19 }
{
    let prefix = texts::put_two(out, at, b' ', b'0');
    let digits = texts::put_byte(out, prefix, b'x');
    put_hex(out, digits, 16, points::bits_of(x))
}

// The three coordinates of a position.
fn put_position(out: &mut [u8], at: usize, p: Position) -> usize
    requires { at + 57 ≤ length out.old }
    ensures result_after { T.written out.new result ≡ T.wrote out.old at (D.position_words p) }
    ensures next { result ≡ at + 57 }
{
    let second = put_bits(out, at, p.x);
    let third = put_bits(out, second, p.y);
    put_bits(out, third, p.z)
}

// The keys of a name, or so many dashes for none.
fn put_name(out: &mut [u8], at: usize, name: Name, dashes: u32) -> usize
    requires { at + 22 ≤ length out.old }
    ensures result_after { T.written out.new result ≡ T.wrote out.old at (D.name_text dashes name) }
    ensures short { result ≤ at + 22 }
{
    match name {
        Name::Absent => {
            if dashes == 0 {
                return at;
            }
            let next = texts::put_two(out, at, b' ', b'-');
            if dashes == 1 {
                return next;
            }
            texts::put_two(out, next, b' ', b'-')
        }
        Name::Key(k) => texts::put_spaced(out, at, k),
        Name::Arc(s, d) => {
            let next = texts::put_spaced(out, at, s);
            texts::put_spaced(out, next, d)
        }
    }
}

// ---- lines

// A vertex: its key, its position, its leading arc or none.
pub fn put_vertex(out: &mut [u8], at: usize, key: u32, p: Position, leading: Name) -> usize
    requires { at + 128 ≤ length out.old }
    ensures result_after { T.written out.new result ≡ T.wrote out.old at (D.vertex_text key p leading) }
    ensures short { result ≤ at + 128 }
{
    let first = texts::put_byte(out, at, b'V');
    let second = texts::put_spaced(out, first, key);
    let third = put_position(out, second, p);
    let last = put_name(out, third, leading, 2);
    texts::put_byte(out, last, b'\n')
}

// The names of an arc's next and previous.
fn put_arcs(out: &mut [u8], at: usize, a: Name, b: Name) -> usize
    requires { at + 44 ≤ length out.old }
    ensures result_after { T.written out.new result ≡ T.wrote out.old at (D.arcs_text a b) }
    ensures short { result ≤ at + 44 }
{
    let next = put_name(out, at, a, 2);
    put_name(out, next, b, 2)
}

// The names of an arc's face and edge.
fn put_keys(out: &mut [u8], at: usize, a: Name, b: Name) -> usize
    requires { at + 44 ≤ length out.old }
    ensures result_after { T.written out.new result ≡ T.wrote out.old at (D.keys_text a b) }
    ensures short { result ≤ at + 44 }
{
    let next = put_name(out, at, a, 1);
    put_name(out, next, b, 1)
}

// An arc: its name; next, previous, face, each possibly none; its edge.
pub fn put_arc(
    out: &mut [u8],
    at: usize,
    name: Name,
    next: Name,
    previous: Name,
    face: Name,
    edge: Name,
) -> usize
    requires { at + 128 ≤ length out.old }
    ensures result_after { T.written out.new result ≡ T.wrote out.old at (D.arc_text name next previous face edge) }
    ensures short { result ≤ at + 128 }
{
    let first = texts::put_byte(out, at, b'A');
    let second = put_name(out, first, name, 0);
    let third = put_arcs(out, second, next, previous);
    let last = put_keys(out, third, face, edge);
    texts::put_byte(out, last, b'\n')
}

// An edge: its key, and one of its arcs.
pub fn put_edge(out: &mut [u8], at: usize, key: u32, arc: Name) -> usize
    requires { at + 128 ≤ length out.old }
    ensures result_after { T.written out.new result ≡ T.wrote out.old at (D.edge_text key arc) }
    ensures short { result ≤ at + 128 }
{
    let first = texts::put_byte(out, at, b'E');
    let second = texts::put_spaced(out, first, key);
    let last = put_name(out, second, arc, 2);
    texts::put_byte(out, last, b'\n')
}

// A face: its key, one arc, a mark.
pub fn put_face(out: &mut [u8], at: usize, key: u32, arc: Name, mark: u32) -> usize
    requires { at + 128 ≤ length out.old }
    ensures result_after { T.written out.new result ≡ T.wrote out.old at (D.face_text key arc mark) }
    ensures short { result ≤ at + 128 }
{
    let first = texts::put_byte(out, at, b'F');
    let second = texts::put_spaced(out, first, key);
    let third = put_name(out, second, arc, 2);
    let last = texts::put_spaced(out, third, mark);
    texts::put_byte(out, last, b'\n')
}

// The counters of vertices, edges, faces.
pub fn put_counters(out: &mut [u8], at: usize, v: u32, e: u32, f: u32) -> usize
    requires { at + 128 ≤ length out.old }
    ensures result_after { T.written out.new result ≡ T.wrote out.old at (D.counters_text v e f) }
    ensures short { result ≤ at + 128 }
{
    let first = texts::put_byte(out, at, b'C');
    let last = texts::put_three(out, first, v, e, f);
    texts::put_byte(out, last, b'\n')
}
