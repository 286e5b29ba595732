// A whole line of a script: by its letter, the edit that it says with what the caller gives, or nothing that can be read.
// It carries document 01's "one line a call, at most 512 bytes before the newline" and "Lines: `v x y z`; `f mark keys`; `r F`;
// `s F a b`; `p F x y z`; `b F G`; `j a b c d` (arc bridge); `x F dx dy dz` and `a s d dx dy dz` (shifts)". Every line is read with
// the reader of reader.rt, which is made once for it (contents_of); what it says is told from what was read.

ghost use Rattle.std.specs.Prelude.{◌≡◌, List, [], ◌∷◌, ℕ, ◌≤◌, IfSome, length, take, drop};
ghost use Rattle.rules.specs.Script as S;
ghost use Rattle.script.specs.Fields.{padded};
ghost use Rattle.script.specs.Lines as L;

use crate::reader::Line;
use crate::{Contents, KEYS, LINE, Parsed};
use rules::{Edit, Move, Position};

// ---- what stands on a line

// How many numbers are read after a letter, at most: those before a point, or else all there are, which are fewer than the bytes.
fn most_numbers(letter: u8) -> usize
    ensures { result ≡ L.most_numbers letter }
{
    match letter {
        b'v' => 0,
        b'p' => 1,
        b'x' => 1,
        b'a' => 2,
        _ => LINE,
    }
}

// What stands on a line. The reader is made of the line once, and moves on with each thing that it reads.
fn contents_of(text: &[u8]) -> Option<Contents>
    requires { length text.now ≤ 512 }
    ensures { result ≡ L.contents_of text.now }
{
    let mut line = Line { text, at: 0 };
    let letter = line.letter()?;
    let numbers = line.numbers(most_numbers(letter))?;
    Some(Contents {
        letter,
        numbers,
        spot: line.spot(),
    })
}

// ---- what a line says

// An edit that has no keys beside it.
fn says(edit: Edit) -> Option<Parsed>
    ensures { result ≡ L.parsed_of (S.says edit []) }
{
    Some(Parsed {
        edit,
        keys: [0; KEYS],
        count: 0,
    })
}

// A point as a shift.
fn shift(p: Position) -> Move
    ensures { result ≡ S.shift p }
{
    Move::Shift(p.x, p.y, p.z)
}

// ---- what stands after the letter

// Exactly n numbers, at most four, and 0 past the last.
fn exactly(contents: Contents, n: usize) -> Option<[u32; 4]>
    ensures { (fields : List S.Text) → L.Holds contents 512 fields → result ≡ L.exactly_of n (S.numbers_in fields) }
{
    let all = contents.numbers;
    if all.count != n {
        return None;
    }
    let k = all.values;
    Some([k[0], k[1], k[2], k[3]])
}

// At most two numbers, 0 past the last, and a point.
fn aimed(contents: Contents) -> Option<(u32, u32, Position)>
    ensures { (n : ℕ) (fields : List S.Text) → L.Holds contents n fields
        → result ≡ L.aim_of (S.numbers_in (take n fields)) (S.point_in (drop n fields)) }
{
    let p = contents.spot?;
    let k = contents.numbers.values;
    Some((k[0], k[1], p))
}

// The numbers after the first, 0 past the last.
fn after_first(values: [u32; KEYS]) -> [u32; KEYS]
    ensures { (n : ℕ) (ns : List ℕ) → values ≡ padded (n ∷ ns) → result ≡ padded ns }
{
    let mut keys = [0u32; KEYS];
    keys[..KEYS - 1].copy_from_slice(&values[1..]);
    keys
}

// ---- the nine letters

// v x y z
fn vertex_insert(contents: Contents) -> Option<Parsed>
    ensures { L.Tells 118 contents result }
{
    let (_, _, p) = aimed(contents)?;
    says(Edit::VertexInsert(p))
}

// f mark keys
fn face_insert(contents: Contents) -> Option<Parsed>
    ensures { L.Tells 102 contents result }
{
    let all = contents.numbers;
    if all.count == 0 {
        return None;
    }
    let values = all.values;
    Some(Parsed {
        edit: Edit::FaceInsert(values[0]),
        keys: after_first(values),
        count: all.count - 1,
    })
}

// r F
fn face_remove(contents: Contents) -> Option<Parsed>
    ensures { L.Tells 114 contents result }
{
    let [f, _, _, _] = exactly(contents, 1)?;
    says(Edit::FaceRemove(f))
}

// s F a b
fn face_split(contents: Contents) -> Option<Parsed>
    ensures { L.Tells 115 contents result }
{
    let [f, a, b, _] = exactly(contents, 3)?;
    says(Edit::FaceSplit(f, a, b))
}

// p F x y z
fn face_poke(contents: Contents) -> Option<Parsed>
    ensures { L.Tells 112 contents result }
{
    let (f, _, p) = aimed(contents)?;
    says(Edit::FacePoke(f, p))
}

// b F G
fn face_bridge(contents: Contents) -> Option<Parsed>
    ensures { L.Tells 98 contents result }
{
    let [f, g, _, _] = exactly(contents, 2)?;
    says(Edit::FaceBridge(f, g))
}

// j a b c d
fn arc_bridge(contents: Contents) -> Option<Parsed>
    ensures { L.Tells 106 contents result }
{
    let [a, b, c, d] = exactly(contents, 4)?;
    says(Edit::ArcBridge(a, b, c, d))
}

// x F dx dy dz
fn face_extrude(contents: Contents) -> Option<Parsed>
    ensures { L.Tells 120 contents result }
{
    let (f, _, p) = aimed(contents)?;
    says(Edit::FaceExtrude(f, shift(p)))
}

// a s d dx dy dz
fn arc_extrude(contents: Contents) -> Option<Parsed>
    ensures { L.Tells 97 contents result }
{
    let (s, d, p) = aimed(contents)?;
    says(Edit::ArcExtrude(s, d, shift(p)))
}

// ---- the line

// By its letter.
fn by_letter(contents: Contents) -> Option<Parsed>
    ensures { L.Tells contents.letter contents result }
{
    let letter = contents.letter;
    match letter {
        b'v' => vertex_insert(contents),
        b'f' => face_insert(contents),
        b'r' => face_remove(contents),
        b's' => face_split(contents),
        b'p' => face_poke(contents),
        b'b' => face_bridge(contents),
        b'j' => arc_bridge(contents),
        b'x' => face_extrude(contents),
        b'a' => arc_extrude(contents),
        _ => None,
    }
}

// What a line says, or none. A line of more than 512 bytes, and one whose first field is not one letter, can't be read.
pub fn read_line(text: &[u8]) -> Option<Parsed>
    ensures value { result ≡ L.parsed_of (S.line_in text.now) }
    ensures few { IfSome result (λ r. r.count ≤ 254) }
{
    if text.len() > LINE {
        return None;
    }
    by_letter(contents_of(text)?)
}
