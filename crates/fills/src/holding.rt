// Whether rows can hold what a file's records say: a key plus one, and coordinates that are finite. Where they cannot, the mesh that the file holds is not
// sound. Request L3: "12 for an unsound mesh".

ghost use mathlib.Core.Path.{◌≡◌};
ghost use mathlib.Core.Bool.{true};
ghost use mathlib.Core.List.{[]};
ghost use Prim.Native.Nat.{◌<◌};
ghost use lib.Dec.{T};
ghost use lib.ListN.{length, get_or};
ghost use lib.Ieee.{binary64, of_bits};
ghost use Rattle.std.specs.Option.{is_some, IfSome};
ghost use Rattle.rules.specs.Table.{every};
ghost use Rattle.rules.specs.Point.{finite_number, finite_row};
ghost use Rattle.file.specs.File.{contents_in, position_row};
ghost use Rattle.bodies.specs.Bodies.{records_in, T_prop};
ghost use Rattle.bodies.specs.Kinds.{number};
ghost use Rattle.fills.specs.Fills.{key_fits, finite_record, storable};

use crate::cells;
use bodies::kinds::Kind;
use bodies::records::{LaidFile, WholeFile};

// A whole file of which rows can hold every record.
#[derive(Clone, Copy)]
pub struct StorableFile<'a> {
    pub whole: WholeFile<'a>,
    pub ghost rows: { T (storable (contents_in whole.file.text.now)) } by { T_prop (storable (contents_in whole.file.text.now)) },
}

impl<'a> StorableFile<'a> {
    pub fn of(whole: WholeFile<'a>) -> Option<StorableFile<'a>>
        ensures holds { is_some result ≡ storable (contents_in whole.entry.file.text.now) }
        ensures same { IfSome result (λ f. f.whole.file.text.now ≡ whole.entry.file.text.now) }
    {
        if !can_hold(whole.file) {
            return None;
        }
        Some(StorableFile { whole })
    }
}

// Whether the key of record i of a kind can be held.
fn key_fits(file: LaidFile, kind: Kind, i: usize) -> bool
    requires { i < length (records_in file.text.now (number kind)) }
    ensures { result ≡ key_fits (get_or (records_in file.entry.text.now (number kind)) i []) }
{
    cells::cell(file, kind, i, 0) < u32::MAX
}

fn keys_fit(file: LaidFile, kind: Kind) -> bool
    ensures { result ≡ every key_fits (records_in file.entry.text.now (number kind)) }
{
    (0..file.count(kind)).all(|i| key_fits(file, kind, i))
}

// Whether 64 bits are a finite number: not all of bits 52 to 62 are ones. Those of a NaN make no f64 to ask.
fn finite_bits(b: u64) -> bool
    ensures { result ≡ finite_number (of_bits binary64 b) }
{
    b / 4503599627370496 % 2048 != 2047
}

// The float of such bits.
pub fn float_of(b: u64) -> f64
    requires { finite_number (of_bits binary64 b) ≡ true }
    ensures { result ≡ of_bits binary64 b }
{
    f64::from_bits(b)
}

// Whether the position of vertex i is finite.
fn finite_record(file: LaidFile, i: usize) -> bool
    requires { i < length (records_in file.text.now 0) }
    ensures { result ≡ finite_record (get_or (records_in file.entry.text.now 0) i []) }
{
    finite_bits(cells::bits(file, i, 0))
        && finite_bits(cells::bits(file, i, 1))
        && finite_bits(cells::bits(file, i, 2))
}

fn positions_finite(file: LaidFile) -> bool
    ensures { result ≡ every finite_record (records_in file.entry.text.now 0) }
{
    (0..file.count(Kind::Vertices)).all(|i| finite_record(file, i))
}

pub fn can_hold(file: LaidFile) -> bool
    ensures { result ≡ storable (contents_in file.entry.text.now) }
{
    keys_fit(file, Kind::Vertices)
        && keys_fit(file, Kind::Edges)
        && keys_fit(file, Kind::Faces)
        && positions_finite(file)
}
