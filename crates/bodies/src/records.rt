// A file that is laid out as its table of contents says: a record by its place, its key as one number, and whether keys rise. Request L3: "11 if .. its keys
// don't rise", "in key order (arcs by source, then destination)".

ghost use mathlib.Core.Path.{◌≡◌};
ghost use Prim.Native.Nat.{◌+◌, ◌<◌};
ghost use lib.Dec.{T};
ghost use lib.ListN.{length, get_or};
ghost use mathlib.Core.List.{[]};
ghost use Rattle.std.specs.Option.{is_some, IfSome};
ghost use Rattle.file.specs.File.{key_cells, contents_in, rises_by, rising, all_rise, in_place, length_fits, placed, head_length, schema};
ghost use Rattle.bodies.specs.Bodies.{records_in, place, key_number, Laid, laid_prop, T_prop};
ghost use Rattle.bodies.specs.Kinds.{number};

use crate::kinds::{KINDS, Kind};
use crate::{cells, layout};

// The text is as long as its counts ask, and its bodies stand where its offsets say.
#[derive(Clone, Copy)]
pub struct LaidFile<'a> {
    pub text: &'a [u8],
    pub ghost laid: { Laid text.now } by { laid_prop text.now },
}

// The keys of each of its bodies rise too.
#[derive(Clone, Copy)]
pub struct WholeFile<'a> {
    pub file: LaidFile<'a>,
    pub ghost in_place: { T (in_place file.text.now) } by { T_prop (in_place file.text.now) },
}

impl<'a> LaidFile<'a> {
    // Where every body starts where the one before ends.
    pub fn of(text: &'a [u8]) -> Option<LaidFile<'a>>
        requires { T (length_fits text.now) }
        ensures stands { is_some result ≡ placed head_length schema text.now }
        ensures same { IfSome result (λ f. f.text.now ≡ text.now) }
    {
        if !layout::offsets_stand(text) {
            return None;
        }
        Some(LaidFile { text })
    }

    // How many records of a kind there are.
    pub fn count(self, kind: Kind) -> usize
        ensures { (result ≡ length (records_in self.entry.text.now (number kind))) × (result < 4294967296) }
    {
        layout::count_of(self.text, kind)
    }

    // Where record i of a kind stands.
    pub fn record_at(self, kind: Kind, i: usize) -> usize
        requires { i < length (records_in self.text.now (number kind)) }
        ensures { result ≡ place self.entry.text.now (number kind) i }
    {
        layout::offset_of(self.text, kind) + layout::space(kind, i)
    }

    // Its key: of an arc's two cells the first counts 2^32-fold, so that the numbers are in key order.
    pub fn key_number(self, kind: Kind, i: usize) -> u64
        requires { i < length (records_in self.text.now (number kind)) }
        ensures { result ≡ key_number (number kind) (get_or (records_in self.entry.text.now (number kind)) i []) }
    {
        let at = self.record_at(kind, i);
        let first = u64::from(cells::number4(self.text, at));
        match kind {
            Kind::Arcs => first * 4294967296 + u64::from(cells::number4(self.text, at + 4)),
            _ => first,
        }
    }

    // Whether the key of record i is below the next.
    fn rises_at(self, kind: Kind, i: usize) -> bool
        requires { (i < 4294967296) × (i + 1 < length (records_in self.text.now (number kind))) }
        ensures { result ≡ rises_by (get_or key_cells (number kind) 0)
            (get_or (records_in self.entry.text.now (number kind)) i [])
            (get_or (records_in self.entry.text.now (number kind)) (i + 1) []) }
    {
        self.key_number(kind, i) < self.key_number(kind, i + 1)
    }

    // Whether the keys of a kind rise.
    fn rises(self, kind: Kind) -> bool
        ensures { result ≡ rising (get_or key_cells (number kind) 0) (records_in self.entry.text.now (number kind)) }
    {
        (0..self.count(kind).saturating_sub(1)).all(|i| self.rises_at(kind, i))
    }

    // Whether those of every kind do.
    fn keys_rise(self) -> bool
        ensures { result ≡ all_rise key_cells (contents_in self.entry.text.now).bodies }
    {
        for kind in KINDS {
            if !self.rises(kind) {
                return false;
            }
        }
        true
    }
}

impl<'a> WholeFile<'a> {
    // 11: bodies in place, and keys that rise.
    pub fn of(text: &'a [u8]) -> Option<WholeFile<'a>>
        requires { T (length_fits text.now) }
        ensures whole { is_some result ≡ in_place text.now }
        ensures same { IfSome result (λ f. f.file.text.now ≡ text.now) }
    {
        let file = LaidFile::of(text)?;
        if !file.keys_rise() {
            return None;
        }
        Some(WholeFile { file })
    }
}
