// Tables of numbers: a cell or a row by its link, counts of rows, and lookup by key or by two ends.
// A link is a row plus one and 0 is none. Reading through none, past the table or past the row gives 0; writing there changes nothing.
// It carries lookup by key in row tables (document 01, "What must change shape").

// Kept: a lookup answers a link as rows hold it, 0 for none: document 01's tables and the definitions (rules/specs/Mesh) name it so.

ghost use Rattle.std.specs.Prelude.{◌≡◌, get_or, set};
ghost use Rattle.rules.specs.Table.{cell, put, put_row, first_row, link_into, count, used, unused};
ghost use Rattle.rules.specs.Mesh.{keyed, find_key, joins, arc_between, opposite_of};

use rules::{ArcRow, EdgeRow};

// The largest table that has links to give.
pub const ROW_LIMIT: usize = 16384;

// ---- one cell, by its link

// The number in a cell, as an index.
pub fn wide(x: u32) -> usize
    ensures { result ≡ x }
{
    x as usize
}

// Cell c of a row: past its end it reads as 0.
fn cell_of<const N: usize>(row: &[u32; N], c: usize) -> u32
    ensures { result ≡ get_or row.now c 0 }
{
    match row.get(c) {
        Some(x) => *x,
        None => 0,
    }
}

// Cell c of the row that the link l names, in a table of any width.
pub fn cell<const N: usize>(t: &[[u32; N]], l: u32, c: usize) -> u32
    ensures { result ≡ cell t.now l c }
{
    if l == 0 {
        return 0;
    }
    match t.get(l as usize - 1) {
        Some(row) => cell_of(row, c),
        None => 0,
    }
}

// Cell c of a row becomes v: past its end nothing changes.
fn put_in<const N: usize>(row: &mut [u32; N], c: usize, v: u32)
    ensures { row.new ≡ set row.old c v }
{
    if c < N {
        row[c] = v;
    }
}

// That cell becomes v.
pub fn put<const N: usize>(t: &mut [[u32; N]], l: u32, c: usize, v: u32)
    ensures { t.new ≡ put t.old l c v }
{
    if l == 0 {
        return;
    }
    let i = l as usize - 1;
    if i < t.len() {
        put_in(&mut t[i], c, v);
    }
}

// ---- one row, by its link

// That whole row becomes another.
pub fn put_row<const N: usize>(t: &mut [[u32; N]], l: u32, row: [u32; N])
    ensures { t.new ≡ put_row t.old l row.entry }
{
    if l == 0 {
        return;
    }
    let i = l as usize - 1;
    if i < t.len() {
        t[i] = row;
    }
}

// ---- scans

// How many rows are unused, and how many are used.
// Kept: as a filter that is counted, the closure has to state its own contract in three lines (checks/src/free.rt), longer than the loop.
pub fn count_free<const N: usize>(t: &[[u32; N]]) -> usize
    ensures { result ≡ count unused t.now }
{
    let mut n = 0;
    for row in t {
        if cell_of(row, 0) == 0 {
            n += 1;
        }
    }
    n
}

pub fn count_used<const N: usize>(t: &[[u32; N]]) -> usize
    ensures { result ≡ count used t.now }
{
    let mut n = 0;
    for row in t {
        if cell_of(row, 0) != 0 {
            n += 1;
        }
    }
    n
}

// ---- lookup

// Whether a row holds the key: an unused row holds none.
fn holds_key<const N: usize>(row: &[u32; N], key: u32) -> bool
    ensures { result ≡ keyed key row.now }
{
    let held = cell_of(row, 0);
    held != 0 && held - 1 == key
}

// The first row with the key.
// Kept: 0 for none is what a table's cell holds, by document 01's links.
fn scan_key<const N: usize>(t: &[[u32; N]], key: u32) -> u32
    ensures { result ≡ link_into t.now (first_row (keyed key) t.now) }
{
    if t.len() > ROW_LIMIT {
        return 0;
    }
    // Kept: `position` was tried, and the proof for rows of any width did not close.
    for (i, row) in t.iter().enumerate() {
        if holds_key(row, key) {
            return i as u32 + 1;
        }
    }
    0
}

// The row with the key: the likely row, which is row key while no record was removed, and else the first that has it.
pub fn find_key<const N: usize>(t: &[[u32; N]], key: u32) -> u32
    ensures { result ≡ find_key t.now key }
{
    if t.len() > ROW_LIMIT {
        return 0;
    }
    match t.get(key as usize) {
        Some(row) if holds_key(row, key) => key + 1,
        _ => scan_key(t, key),
    }
}

// Whether the arc of a row leads from the vertex a to the vertex b.
fn joins(row: &ArcRow, a: u32, b: u32) -> bool
    ensures { result ≡ joins a b row.now }
{
    row[0] == a && row[1] == b
}

// The arc from the vertex a to the vertex b, by their links: none leads from none.
// Kept: the hot search of all arcs; as in scan_key, `position` leaves the link to be worked out after it, and the loop answers it where it finds it.
pub fn find_arc(arcs: &[ArcRow], a: u32, b: u32) -> u32
    ensures { result ≡ arc_between arcs.now a b }
{
    if a == 0 {
        return 0;
    }
    if arcs.len() > ROW_LIMIT {
        return 0;
    }
    for (arc, row) in arcs.iter().enumerate() {
        if joins(row, a, b) {
            return arc as u32 + 1;
        }
    }
    0
}

// (b,a) of (a,b): the other arc of its edge.
pub fn opposite(arcs: &[ArcRow], edges: &[EdgeRow], x: u32) -> u32
    ensures { result ≡ opposite_of arcs.now edges.now x }
{
    let edge = cell(arcs, x, 5);
    let named = cell(edges, edge, 1);
    if named == x {
        return cell(edges, edge, 2);
    }
    named
}
