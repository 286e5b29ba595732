// The line that is read, held from chunk to chunk until its newline comes: its first 513 bytes.
// It carries document 01's "one line a call, at most 512 bytes before the newline".

ghost use Rattle.std.specs.Prelude.{◌≡◌, ◌≤◌, ◌+◌, drop, length};
ghost use Rattle.script.specs.Texts.{Written, written};
ghost use Rattle.runs.specs.Gather.{holding, held_in, none_held, gathered_from, gathered_to};
ghost use Rattle.runs.specs.Whole.{fresh};

use crate::HELD;
use std::marker::Model;

// The byte that ends a line.
const NEWLINE: u8 = b'\n';

// Kept: there is no heap: the bytes stand in an array, with how many of them count.
#[derive(Drop)]
pub struct Held {
    bytes: [u8; HELD],
    len: usize,
}

impl Model for Held {
    ghost Value = { Written };

    ghost view = { λ h. written h.bytes h.len };

    ghost invariant = { λ h. h.len ≤ 513 };
}

impl Held {
    // No byte.
    pub fn new() -> Self
        ensures { result ≡ fresh }
    {
        Held {
            bytes: [0; HELD],
            len: 0,
        }
    }

    // The first bytes of an array.
    pub fn of(bytes: [u8; HELD], len: usize) -> Self
        requires { len ≤ 513 }
        ensures { result ≡ written bytes len }
    {
        Held { bytes, len }
    }

    // How many bytes are held.
    pub fn len(&self) -> usize
        ensures { result ≡ self.now.next }
    {
        self.len
    }

    // The bytes that are held.
    pub fn text(&self) -> &[u8]
        ensures { result.now ≡ held_in self.now }
    {
        &self.bytes[..self.len]
    }

    // One byte more, which is held unless 513 are.
    pub fn push(&mut self, b: u8)
        ensures { self.new ≡ holding self.old b }
    {
        if self.len < HELD {
            self.bytes[self.len] = b;
            self.len += 1;
        }
    }

    // The bytes of a chunk from a place on, up to the next newline, which is passed by, or to the chunk's end: the place after a line that ended.
    pub fn gather(&mut self, chunk: &[u8], from: usize) -> Option<usize>
        ensures { gathered_to (from + length (drop from chunk.now)) result self.new ≡ gathered_from from self.old (drop from chunk.now) }
    {
        for i in from..chunk.len() {
            if chunk[i] == NEWLINE {
                return Some(i + 1);
            }
            self.push(chunk[i]);
        }
        None
    }

    // The line ended.
    pub fn clear(&mut self)
        ensures { self.new ≡ none_held self.old }
    {
        self.len = 0;
    }
}
