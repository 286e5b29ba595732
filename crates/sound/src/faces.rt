// The ring of each face. It carries document 01's "a face's record names an arc that holds it; next from there returns after 3 to 64 arcs
// with distinct sources, which are all the arcs that hold that face, and previous runs them backwards".
// That no arc off its ring holds a face, and none a face that is not there, is one sum: the rings together have as many arcs as hold a face.
// What document 01 asks of next and previous of an arc with a face is told by its ring too, and what it asks of a face's row on the way.

ghost use Rattle.std.specs.Prelude.{◌≡◌, not, ◌&&◌, cond, ◌≤◌, get_or, eqb, leb};
ghost use Rattle.rules.specs.Table.{count, all_below};
ghost use Rattle.rules.specs.Mesh.{Mesh, face_arc};
ghost use Rattle.rules.specs.Lent.{mesh_in};
ghost use Rattle.proved.specs.Demand.{holds_some};
ghost use Rattle.sound.specs.Tests.{face_test};
ghost use Rattle.sound.specs.Parts.{faces_sound, PassOf};
ghost use Rattle.sound.specs.Rings.{row_of, ring_row, apart, linked_length, LengthIs, rings_full};

use crate::keys::Rising;
use crate::{blanks, keys, short};
use rules::{ArcRow, FaceRow, MeshRef, RING};
use tables::rows;

// ---- one ring, walked once, its arcs linked: each leaves where the arc before ends

// Sources are distinct: this one is none of the n before.
// Kept: fixed memory: the walk fills the list as far as it has come, and so many places count.
fn new_source(sources: &[u32; RING], n: usize, source: u32) -> bool
    requires { n ≤ 64 }
    ensures { result ≡ all_below (λ j. not (eqb (get_or sources.now j 0) source)) n }
{
    !sources[..n].contains(&source)
}

// Next returns after 3 arcs or more: fewer count as none.
fn three_or_none(n: usize) -> Option<usize>
    ensures { LengthIs (cond (leb 3 n) n 0) result }
{
    if n < 3 {
        return None;
    }
    Some(n)
}

// The row of an arc, by its link, if the table has it.
pub fn row_of(arcs: &[ArcRow], x: u32) -> Option<ArcRow>
    ensures { result ≡ row_of arcs.now x }
{
    let i = rows::wide(x).checked_sub(1)?;
    arcs.get(i).copied()
}

// An arc on the ring of f: it holds the face, and comes after the arc `before`, which ends at `end`.
pub fn ring_row(row: ArcRow, f: usize, before: u32, end: u32) -> bool
    ensures { result ≡ ring_row row f before end }
{
    (row[0] != 0) & ((rows::wide(row[4]) == f) & ((row[3] == before) & (row[0] == end)))
}

// Sources are distinct: the first n.
fn sources_apart(sources: &[u32; RING], n: usize) -> bool
    requires { n ≤ 64 }
    ensures { result ≡ apart sources.now n }
{
    (0..n).all(|i| new_source(sources, i, sources[i]))
}

// The walk is back: its last arc is the one before the first, and ends where the first leaves.
fn meets_first(before: u32, back: u32, end: u32, start: u32) -> bool
    ensures { result ≡ (eqb before back && eqb end start) }
{
    before == back && end == start
}

// How many arcs the ring of a face has, where all that is asked of one ring holds and its arcs are linked. The walk begins at the arc
// that the face's record names, has 64 arcs at most, and reads each arc's row once. What stood in the list of sources does not matter.
// Kept: the list of sources is lent, so that it isn't made zero for each face.
fn walked_length(sources: &mut [u32; RING], arcs: &[ArcRow], first: u32, f: usize) -> Option<usize>
    ensures { (m : Mesh) → m.arcs ≡ arcs.now → face_arc m f ≡ first → LengthIs (linked_length m f) result }
{
    let back = rows::cell(arcs, first, 3);
    let start = rows::cell(arcs, first, 0);
    let mut x = first;
    let mut before = back;
    let mut end = start;
    for n in 0..RING {
        let row = row_of(arcs, x)?;
        if !ring_row(row, f, before, end) {
            return None;
        }
        sources[n] = row[0];
        before = x;
        end = row[1];
        x = row[2];
        if x == first {
            if !meets_first(before, back, end, start) {
                return None;
            }
            if !sources_apart(sources, n + 1) {
                return None;
            }
            return three_or_none(n + 1);
        }
    }
    None
}

// The length of the ring, if it is one: told at once where it has three arcs or four (short.rt), as most have.
fn linked_length(sources: &mut [u32; RING], arcs: &[ArcRow], first: u32, f: usize) -> Option<usize>
    ensures { (m : Mesh) → m.arcs ≡ arcs.now → face_arc m f ≡ first → LengthIs (linked_length m f) result }
{
    short::short_length(arcs, first, f).or_else(|| walked_length(sources, arcs, first, f))
}

// ---- all faces

// What is asked of a face's row by itself.
fn face_row(counter: u32, row: FaceRow) -> bool
    ensures { result ≡ face_test counter row }
{
    blanks::blank(&row) && keys::key_below(row[0], counter)
}

// Every face's row passes, its ring is whole and linked, and together the rings have as many arcs as hold a face, which the caller has
// counted. It tells too whether the keys of the faces rise.
pub fn rings_sound(mesh: MeshRef, held: usize) -> Option<Rising>
    requires { held ≡ count holds_some mesh.arcs.now }
    ensures { PassOf (faces_sound (mesh_in mesh.entry) && rings_full (mesh_in mesh.entry)) mesh.entry.faces.now result }
{
    let mut sources = [0u32; RING];
    let mut left = held;
    let mut keys = Rising::start();
    for (i, row) in mesh.faces.iter().enumerate() {
        if !face_row(mesh.counters[2], *row) {
            return None;
        }
        keys = keys.after(row[0]);
        if row[0] != 0 {
            let n = linked_length(&mut sources, mesh.arcs, row[1], i + 1)?;
            left = left.checked_sub(n)?;
        }
    }
    (left == 0).then_some(keys)
}
