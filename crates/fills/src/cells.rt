// A cell of a record, and the 64 bits of a coordinate. Request L3: "A vertex is 32 bytes (key, position, destination of its leading arc), an arc 24 (source,
// destination, destination of next, source of previous, face, edge), an edge 12 and a face 16", "None is written as 4,294,967,295".

ghost use mathlib.Core.Path.{◌≡◌};
ghost use mathlib.Core.List.{[]};
ghost use Prim.Native.Nat.{◌+◌, ◌<◌, ◌≤◌};
ghost use lib.ListN.{length, get_or, take};
ghost use Rattle.file.specs.File.{total, contents_in};
ghost use Rattle.bodies.specs.Bodies.{widths, records_in};
ghost use Rattle.bodies.specs.Kinds.{number};
ghost use Rattle.fills.specs.Fills.{FourBytes, name_in};

use bodies::cells;
use bodies::kinds::Kind;
use bodies::records::LaidFile;

// The key in a cell that may say none.
pub fn name_in(cell: u32) -> Option<u32>
    ensures { result ≡ name_in cell }
{
    if cell == u32::MAX { None } else { Some(cell) }
}

// How many bytes stand before a cell of 4 bytes: of a vertex the first and the last are such cells.
fn bytes_before(kind: Kind, j: usize) -> usize
    requires { FourBytes (number kind) j }
    ensures { result ≡ total (take j (widths (number kind))) }
{
    match kind {
        Kind::Vertices => { if j == 0 { 0 } else { 28 } }
        _ => 4 * j,
    }
}

// Cell j of record i, of 4 bytes.
pub fn cell(file: LaidFile, kind: Kind, i: usize, j: usize) -> u32
    requires { (i < length (records_in file.text.now (number kind))) × FourBytes (number kind) j }
    ensures { result ≡ get_or (get_or (records_in file.entry.text.now (number kind)) i []) j 0 }
{
    cells::number4(file.text, file.record_at(kind, i) + bytes_before(kind, j))
}

// Coordinate j of vertex i, as its 64 bits.
pub fn bits(file: LaidFile, i: usize, j: usize) -> u64
    requires { (i < length (records_in file.text.now 0)) × (j < 3) }
    ensures { (result ≡ get_or (get_or (records_in file.entry.text.now 0) i []) (j + 1) 0) × (result < 18446744073709551616) }
{
    cells::number8(file.text, file.record_at(Kind::Vertices, i) + 4 + 8 * j)
}

// The three key counters.
pub fn counters(text: &[u8]) -> [u32; 3]
    requires { 44 ≤ length text.now }
    ensures { result ≡ (contents_in text.now).counters }
{
    [
        cells::number4(text, 32),
        cells::number4(text, 36),
        cells::number4(text, 40),
    ]
}
