// Rings of three arcs and of four, as most faces have: all their rows are read, and compared at once. It carries document 01's "next from there
// returns after 3 to 64 arcs with distinct sources, which are all the arcs that hold that face, and previous runs them backwards" for
// these, like the walk of faces.rt for rings of any length.

ghost use Rattle.std.specs.Prelude.{◌≡◌, ℕ, get_or};
ghost use Rattle.rules.specs.Table.{cell};
ghost use Rattle.rules.specs.Mesh.{Mesh, face_arc};
ghost use Rattle.sound.specs.Rings.{linked_length, IfTold, three_apart, three_rows, four_rows};

use crate::faces;
use rules::ArcRow;

// The row of an arc, by its link. Through none, or past the table, it is zero.
fn row_at(arcs: &[ArcRow], x: u32) -> ArcRow
    ensures { (c : ℕ) → get_or result c 0 ≡ cell arcs.now x c }
{
    faces::row_of(arcs, x).unwrap_or([0; 6])
}

// Whether three numbers differ.
fn three_apart(a: u32, b: u32, c: u32) -> bool
    ensures { result ≡ three_apart a b c }
{
    (a != b) & ((a != c) & (b != c))
}

// Whether the rows p, q and z, in this order, are those of a ring of f: each comes after the one before, the first after the last, and their
// sources are distinct.
fn three_rows(p: ArcRow, q: ArcRow, z: ArcRow, f: usize, first: u32) -> bool
    ensures { result ≡ three_rows p q z f first }
{
    faces::ring_row(p, f, p[3], z[1])
        & (faces::ring_row(q, f, first, p[1])
            & (faces::ring_row(z, f, p[2], q[1]) & three_apart(p[0], q[0], z[0])))
}

// Whether the rows p, q, r and z, in this order, are those of a ring of f.
fn four_rows(p: ArcRow, q: ArcRow, r: ArcRow, z: ArcRow, f: usize, first: u32) -> bool
    ensures { result ≡ four_rows p q r z f first }
{
    faces::ring_row(p, f, p[3], z[1])
        & (faces::ring_row(q, f, first, p[1])
            & (faces::ring_row(r, f, p[2], q[1])
                & (faces::ring_row(z, f, q[2], r[1])
                    & (three_apart(p[0], q[0], z[0])
                        & ((p[0] != r[0]) & ((q[0] != r[0]) & (r[0] != z[0])))))))
}

// How many arcs the ring of a face has, where it has three or four, and all that is asked of one ring holds and its arcs are linked; none
// tells nothing. The last arc is the one before the first.
pub fn short_length(arcs: &[ArcRow], first: u32, f: usize) -> Option<usize>
    ensures { (m : Mesh) → m.arcs ≡ arcs.now → face_arc m f ≡ first → IfTold (linked_length m f) result }
{
    let p = row_at(arcs, first);
    let q = row_at(arcs, p[2]);
    let z = row_at(arcs, p[3]);
    if z[2] != first {
        return None;
    }
    if q[2] == p[3] {
        if !three_rows(p, q, z, f, first) {
            return None;
        }
        return Some(3);
    }
    let r = row_at(arcs, q[2]);
    if r[2] != p[3] || !four_rows(p, q, r, z, f, first) {
        return None;
    }
    Some(4)
}
