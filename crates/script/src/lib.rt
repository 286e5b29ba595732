// The script program's lines and texts: what a line of a script says, and the text that answers it.
// It carries document 01's "The script program": how a line is read, and what is printed for it.
// Each public function says one equation with a definition of the crate rules (specs/Script.antt there).

#![tactic(auto)]

use rules::{Edit, Position};

pub mod fields; // fields.rt: the letter, number or coordinate that a field is
pub mod reader; // reader.rt: a line and the place reached in it
pub mod lines; // lines.rt: a whole line
pub mod texts; // texts.rt: what is written
pub mod dumps; // dumps.rt: the records as text

// The most bytes that a line has before its newline, and the places for its keys, of which it has at most 254.
pub const LINE: usize = 512;

pub const KEYS: usize = 256;

// Numbers in fields one after the other: so many of them, and the places from count on are 0.
#[derive(Clone, Copy)]
pub struct Numbers {
    pub values: [u32; KEYS],
    pub count: usize,
}

// What stands on a line: its letter, the numbers after it, and the point after those, if there is one.
#[derive(Clone, Copy)]
pub struct Contents {
    pub letter: u8,
    pub numbers: Numbers,
    pub spot: Option<Position>,
}

// What a line says, with its keys: so many of them, and the places from count on are 0.
#[derive(Clone, Copy)]
pub struct Parsed {
    pub edit: Edit,
    pub keys: [u32; KEYS],
    pub count: usize,
}

// What is told of an answer: the number of a refusal; or that it was done, with none, one or two numbers.
#[derive(Clone, Copy)]
pub enum Words {
    No(u32),
    Bare,
    One(u32),
    Two(u32, u32),
}

// The name of a record: none, a key, or an arc's two vertex keys.
#[derive(Clone, Copy)]
pub enum Name {
    Absent,
    Key(u32),
    Arc(u32, u32),
}
