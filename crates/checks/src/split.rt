// The checks of a split, and its two halves. Document 01's rule 6, "A vertex outside the ring 4; ring distance (the shorter way round) 0 or 1 is 3;
// an arc of either half, (d,s) and (s,d) among them, held by another face 5. Left runs s to d, right d to s".

ghost use Rattle.std.specs.Prelude.{◌≡◌, not, ◌&&◌, List, ℕ, ◌++◌, ◌+◌, ◌-◌, ◌≤◌, length, eqb, Float};
ghost use Rattle.rules.specs.Lent.{allowed};
ghost use Rattle.rules.specs.Table.{Table};
ghost use Rattle.rules.specs.Mesh.{mesh, face, links_of, list_of};
ghost use Rattle.rules.specs.Insert.{arc_at, has_face};
ghost use Rattle.rules.specs.Edit as Edit;
ghost use Rattle.pairs.specs.Pairs.{arcs_of};

use crate::{insert, rings};
use rules::{ArcRow, FaceRow, Links, RING, Refusal};
use tables::rows;

// ---- a part of a ring

// Two parts as one list.
fn joined(a: &[u32], b: &[u32]) -> Links
    requires { length a.now + length b.now ≤ 64 }
    ensures { result ≡ links_of (a.now ++ b.now) }
{
    let n = a.len();
    let len = n + b.len();
    let mut at = [0u32; RING];
    at[..n].copy_from_slice(a);
    at[n..len].copy_from_slice(b);
    Links { at, len }
}

// What the list has from place i to place j, both among them, on round the end where j is before i.
pub fn stretch(list: Links, i: usize, j: usize) -> Links
    ensures { result ≡ links_of (Edit.stretch (list_of list) i j) }
{
    let all = insert::items(&list);
    let to = &all[..all.len().min(j.saturating_add(1))];
    if j < i {
        return joined(&all[i.min(all.len())..], to);
    }
    lists::from_keys(&to[i.min(to.len())..])
}

// ---- the halves

// The place of x in a list, and 0 where it is not there.
fn place_of(list: Links, x: u32) -> usize
    ensures { result ≡ Edit.place (list_of list) x - 1 }
{
    walks::rings::place_in(list, x).unwrap_or(0)
}

// The vertices of the face f from s to d.
pub fn half(arcs: &[ArcRow], faces: &[FaceRow], f: u32, s: u32, d: u32) -> Links
    ensures { (vs : Table) (ps : List (List Float)) (es : Table) (ks : List ℕ) →
        result ≡ links_of (Edit.half (mesh vs ps arcs.now es faces.now ks) f s d) }
{
    let points = rings::vertices_of(arcs, faces, f);
    stretch(points, place_of(points, s), place_of(points, d))
}

// ---- the checks

// An arc of pair i that another face than f holds, by the arcs of the pairs.
fn other_holds(arcs: &[ArcRow], f: u32, xs: Links, i: usize) -> bool
    ensures { (vs : Table) (ps : List (List Float)) (es fs : Table) (ks per : List ℕ) → list_of xs ≡ arcs_of arcs.now per →
        result ≡ (has_face (mesh vs ps arcs.now es fs ks) per i
        && not (eqb (face (mesh vs ps arcs.now es fs ks) (arc_at (mesh vs ps arcs.now es fs ks) per i)) f)) }
{
    insert::has_face(arcs, xs, i) && rows::cell(arcs, lists::item(xs, i), 4) != f
}

// Whether some pair has one.
pub fn held_by_other(arcs: &[ArcRow], f: u32, per: Links) -> bool
    ensures { (vs : Table) (ps : List (List Float)) (es fs : Table) (ks : List ℕ) →
        result ≡ Edit.held_by_other (mesh vs ps arcs.now es fs ks) f (list_of per) }
{
    lists::known_few(per);
    let xs = pairs::perimeter_arcs(arcs, per);
    for i in 0..lists::size(per) {
        if other_holds(arcs, f, xs, i) {
            return true;
        }
    }
    false
}

// All of them, in order.
pub fn split_checks(
    arcs: &[ArcRow],
    faces: &[FaceRow],
    f: u32,
    s: u32,
    d: u32,
) -> Result<(), Refusal>
    ensures { (vs : Table) (ps : List (List Float)) (es : Table) (ks : List ℕ) →
        allowed result ≡ Edit.split_checks (mesh vs ps arcs.now es faces.now ks) f s d }
{
    if f == 0 {
        return Err(Refusal::TopologyNotFound);
    }
    let points = rings::vertices_of(arcs, faces, f);
    let Some(from) = walks::rings::place_in(points, s) else {
        return Err(Refusal::TopologyNotFound);
    };
    let Some(to) = walks::rings::place_in(points, d) else {
        return Err(Refusal::TopologyNotFound);
    };
    if walks::rings::ring_distance(lists::size(points), from, to) < 2 {
        return Err(Refusal::TopologyMalformed);
    }
    if held_by_other(arcs, f, half(arcs, faces, f, s, d)) {
        return Err(Refusal::TopologyConflict);
    }
    if held_by_other(arcs, f, half(arcs, faces, f, d, s)) {
        return Err(Refusal::TopologyConflict);
    }
    Ok(())
}
