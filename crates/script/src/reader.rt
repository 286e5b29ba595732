// The line reader: a line and the place reached in it. What is read is the field at that place, and the reader moves on behind it; a
// place past the line's end means that no field is left. Every kind of line is read with three of its functions: the letter, then the
// numbers, then the point.
// It carries document 01's "Its line reader holds the line and the place reached in it".

ghost use Rattle.std.specs.Prelude.{◌≡◌, ◌==◌, ◌≤◌, MatchOption, length, take};
ghost use Rattle.std.specs.List.{position};
ghost use Rattle.rules.specs.Script.{numbers_in, point_in};
ghost use Rattle.script.specs.Fields.{field_at, fields_from, next_place, place_after};
ghost use Rattle.script.specs.Fields.{letter_at, number_at, coordinate_at, spot_of, numbers_of, Stays, NoField};

use crate::{KEYS, Numbers, fields};
use rules::Position;

#[derive(Clone, Copy)]
pub struct Line<'a> {
    pub text: &'a [u8],
    pub at: usize,
}

// Where the first space stands.
fn first_space(text: &[u8]) -> Option<usize>
    ensures { result ≡ position (λ b. b == 32) text.now }
{
    text.iter().position(|b| *b == b' ')
}

impl<'a> Line<'a> {
    // The field at the place reached.
    fn field(&mut self) -> Option<&'a [u8]>
        ensures same { Stays self.old self.new }
        ensures place { self.new.at ≡ next_place self.old.text.now self.old.at }
        ensures value { MatchOption result (NoField self.old.text.now self.old.at)
            (λ f. (self.old.at ≤ length self.old.text.now) × (f.now ≡ field_at self.old.text.now self.old.at)) }
    {
        if self.at > self.text.len() {
            return None;
        }
        let rest = &self.text[self.at..];
        let length = first_space(rest).unwrap_or(rest.len());
        self.at += length + 1;
        Some(&rest[..length])
    }

    // The letter that it is.
    pub fn letter(&mut self) -> Option<u8>
        ensures same { Stays self.old self.new }
        ensures place { self.new.at ≡ next_place self.old.text.now self.old.at }
        ensures value { result ≡ letter_at self.old.text.now self.old.at }
    {
        fields::letter(self.field()?)
    }

    // The number in it.
    pub fn number(&mut self) -> Option<u32>
        ensures same { Stays self.old self.new }
        ensures place { self.new.at ≡ next_place self.old.text.now self.old.at }
        ensures value { result ≡ number_at self.old.text.now self.old.at }
    {
        fields::number(self.field()?)
    }

    // The coordinate in it.
    pub fn coordinate(&mut self) -> Option<f64>
        ensures same { Stays self.old self.new }
        ensures place { self.new.at ≡ next_place self.old.text.now self.old.at }
        ensures value { result ≡ coordinate_at self.old.text.now self.old.at }
    {
        fields::coordinate(self.field()?)
    }

    // Numbers, at most so many. Where a field is none, none are read, and the place stays.
    pub fn numbers(&mut self, most: usize) -> Option<Numbers>
        requires { length self.old.text.now ≤ 512 }
        ensures same { Stays self.old self.new }
        ensures place { MatchOption result (self.new.at ≡ self.old.at) (λ _. self.new.at ≡ place_after most self.old.text.now self.old.at) }
        ensures value { result ≡ numbers_of (numbers_in (take most (fields_from self.old.text.now self.old.at))) }
    {
        let mut values = [0u32; KEYS];
        let mut count: usize = 0;
        let mut ahead = *self;
        while count < most && ahead.at <= ahead.text.len() {
            values[count] = ahead.number()?;
            count += 1;
        }
        *self = ahead;
        Some(Numbers { values, count })
    }

    // Three coordinates, and nothing after them.
    pub fn spot(mut self) -> Option<Position>
        ensures { result ≡ spot_of (point_in (fields_from self.entry.text.now self.entry.at)) }
    {
        let x = self.coordinate()?;
        let y = self.coordinate()?;
        let z = self.coordinate()?;
        if self.at <= self.text.len() {
            return None;
        }
        Some(Position { x, y, z })
    }
}
