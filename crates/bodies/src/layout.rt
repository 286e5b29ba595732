// Whether a text's length and its bodies' places are right. Request L3: "10 if the length isn't 44 plus what the counts ask, 11 if a body doesn't start
// where the one before ends".

ghost use mathlib.Core.Path.{◌≡◌};
ghost use Prim.Native.Nat.{◌*◌, ◌≤◌, ◌<◌};
ghost use lib.ListN.{length};
ghost use Rattle.file.specs.File.{body_length, head_length, schema, count_in, offset_in, length_fits, placed};
ghost use Rattle.bodies.specs.Bodies.{widths, entry};
ghost use Rattle.bodies.specs.Kinds.{number};

use crate::cells;
use crate::kinds::{KINDS, Kind};

const HEAD: usize = 44;

// How many bytes so many records of a kind take.
pub fn space(kind: Kind, n: usize) -> usize
    requires { n < 4294967296 }
    ensures { (result ≡ body_length (widths (number kind)) n) × (result ≤ 32 * n) }
{
    let width = match kind {
        Kind::Vertices => 32,
        Kind::Arcs => 24,
        Kind::Edges => 12,
        Kind::Faces => 16,
    };
    width * n
}

// The count and the offset in a kind's entry of the table of contents.
pub fn count_of(text: &[u8], kind: Kind) -> usize
    requires { 44 ≤ length text.now }
    ensures { (result ≡ count_in (entry (number kind) text.now)) × (result < 4294967296) }
{
    cells::number4(text, 8 * kind.number()) as usize
}

pub fn offset_of(text: &[u8], kind: Kind) -> usize
    requires { 44 ≤ length text.now }
    ensures { (result ≡ offset_in (entry (number kind) text.now)) × (result < 4294967296) }
{
    cells::number4(text, 8 * kind.number() + 4) as usize
}

// 10: the length is 44 plus what the counts ask. No count can make the sum wrap.
pub fn length_fits(text: &[u8]) -> bool
    ensures { result ≡ length_fits text.now }
{
    if text.len() < HEAD {
        return false;
    }
    let mut end = HEAD;
    for counted in KINDS {
        end += space(counted, count_of(text, counted));
    }
    text.len() == end
}

// 11: every body starts where the one before ends, an empty one too.
pub fn offsets_stand(text: &[u8]) -> bool
    requires { 44 ≤ length text.now }
    ensures { result ≡ placed head_length schema text.now }
{
    let mut at = HEAD;
    for kind in KINDS {
        if offset_of(text, kind) != at {
            return false;
        }
        at += space(kind, count_of(text, kind));
    }
    true
}
