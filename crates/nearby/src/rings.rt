// Rings near an edit: whether the edit's result is sound. All else that document 01's Sound asks an edit keeps (kept), so only a ring can be broken: one of a
// face that was there, and then an arc near the edit is no longer on it, or that of a new face. Document 01: "next from there returns .. and previous
// runs them backwards", and answer 8.

ghost use Rattle.std.specs.Prelude.{◌≡◌, ◌≤◌, length};
ghost use Rattle.rules.specs.Table.{every};
ghost use Rattle.nearby.specs.Rings.{ring_at, held_at, walked_from, new_ring, new_rings, rings_hold};

use rules::{ArcRow, FaceRow, RING};
use tables::rows;

// ---- one arc

// An arc in use that holds a face is followed and preceded by arcs that hold it.
fn ring_at(arcs: &[ArcRow], x: u32) -> bool
    ensures { result ≡ ring_at arcs.now x }
{
    let face = rows::cell(arcs, x, 4);
    rows::cell(arcs, x, 0) == 0
        || face == 0
        || (rows::cell(arcs, rows::cell(arcs, x, 2), 4) == face
            && rows::cell(arcs, rows::cell(arcs, x, 3), 4) == face)
}

// An arc of the ring of g.
fn held_at(arcs: &[ArcRow], g: u32, x: u32) -> bool
    ensures { result ≡ held_at arcs.now g x }
{
    rows::cell(arcs, x, 0) != 0 && rows::cell(arcs, x, 4) == g && ring_at(arcs, x)
}

// ---- the arcs listed

fn listed_rings(arcs: &[ArcRow], list: &[u32]) -> bool
    ensures { result ≡ every (ring_at arcs.now) list.now }
{
    list.iter().all(|x| ring_at(arcs, *x))
}

// ---- new faces

// Next from the face's arc returns to it within 64 arcs, each of them an arc of the ring of g.
fn walked(arcs: &[ArcRow], g: u32, first: u32) -> bool
    ensures { result ≡ walked_from arcs.now g first 64 first }
{
    let mut x = first;
    for _ in 0..RING {
        if !held_at(arcs, g, x) {
            return false;
        }
        x = rows::cell(arcs, x, 2);
        if x == first {
            return true;
        }
    }
    false
}

// One row of the faces.
fn new_ring(arcs: &[ArcRow], from: u32, row: FaceRow, g: u32) -> bool
    ensures { result ≡ new_ring arcs.now from row g }
{
    row[0] <= from || walked(arcs, g, row[1])
}

// Every face whose key was not yet given when the counter was `from`.
fn new_rings(arcs: &[ArcRow], faces: &[FaceRow], from: u32) -> bool
    requires { length faces.now ≤ 4096 }
    ensures { result ≡ new_rings arcs.now faces.now from }
{
    for (i, row) in faces.iter().enumerate() {
        if !new_ring(arcs, from, *row, i as u32 + 1) {
            return false;
        }
    }
    true
}

// All of it, by the arcs listed.
pub fn rings_hold(arcs: &[ArcRow], faces: &[FaceRow], list: &[u32], from: u32) -> bool
    requires { length faces.now ≤ 4096 }
    ensures { result ≡ rings_hold arcs.now faces.now list.now from }
{
    listed_rings(arcs, list) && new_rings(arcs, faces, from)
}
