// The checks of a face insert, by the vertices of its perimeter. A vertex is named by its link, 0 where its key is unknown.
// Document 01's rule 5, "Fewer than three keys or duplicates 3, before any lookup; unknown vertex 4; then perimeter pairs in order: an existing
// arc with a face 5; an existing arc whose follower is absent, and whose next leads to a vertex of the perimeter, 5". And document 02's L6: a key
// and the one after it (the last and first too) in one spot, "13, after the unknown vertex and before both conflicts".

ghost use Rattle.std.specs.Prelude.{◌≡◌, not, ◌&&◌, List, ℕ, ◌<◌, ◌≤◌, length, get_or, filter, eqb, Float};
ghost use Rattle.rules.specs.Lent.{allowed};
ghost use Rattle.rules.specs.Table.{Table, cell, has, after};
ghost use Rattle.rules.specs.Point.{position_at, same_place};
ghost use Rattle.rules.specs.Mesh.{mesh, list_of};
ghost use Rattle.rules.specs.Insert as Insert;
ghost use Rattle.rules.specs.Call.{pairs_without};
ghost use Rattle.pairs.specs.Pairs.{arcs_of};
ghost use Rattle.checks.specs.Named.{named_so};

use rules::{ArcRow, Links, PositionRow, RING, Refusal};
use tables::{points, rows};

// What a list has, as a slice.
pub fn items(list: &Links) -> &[u32]
    ensures value { result.now ≡ list_of list.now }
    ensures few { length result.now ≤ 64 }
{
    lists::known_few(*list);
    &list.at[..list.len.min(RING)]
}

// Whether x is an arc, and has a face.
pub fn faced(arcs: &[ArcRow], x: u32) -> bool
    ensures { result ≡ (not (eqb x 0) && not (eqb (cell arcs.now x 4) 0)) }
{
    x != 0 && rows::cell(arcs, x, 4) != 0
}

// An existing arc with a face, by the arcs of the perimeter's pairs.
pub fn has_face(arcs: &[ArcRow], xs: Links, i: usize) -> bool
    ensures { (vs : Table) (ps : List (List Float)) (es fs : Table) (ks per : List ℕ) → list_of xs ≡ arcs_of arcs.now per →
        result ≡ Insert.has_face (mesh vs ps arcs.now es fs ks) per i }
{
    faced(arcs, lists::item(xs, i))
}

// An existing arc x whose follower w is absent, and whose next leads to a vertex of the perimeter.
fn leads_back(arcs: &[ArcRow], x: u32, w: u32, per: &[u32]) -> bool
    ensures { result ≡ (not (eqb x 0)
        && (eqb w 0 && (not (eqb (cell arcs.now x 2) 0)
        && has per.now (cell arcs.now (cell arcs.now x 2) 1)))) }
{
    if x == 0 || w != 0 {
        return false;
    }
    let y = rows::cell(arcs, x, 2);
    y != 0 && per.contains(&rows::cell(arcs, y, 1))
}

// Whether some pair has either. xs are the arcs of the perimeter's pairs.
fn conflict(arcs: &[ArcRow], xs: &[u32], per: &[u32]) -> bool
    requires { xs.now ≡ arcs_of arcs.now per.now }
    ensures { (vs : Table) (ps : List (List Float)) (es fs : Table) (ks : List ℕ) →
        result ≡ Insert.conflict (mesh vs ps arcs.now es fs ks) per.now }
{
    for (i, x) in xs.iter().enumerate() {
        let w = xs[lists::place_after(xs.len(), i)];
        if faced(arcs, *x) || leads_back(arcs, *x, w, per) {
            return true;
        }
    }
    false
}

// The same by lists.
pub fn conflict_by(arcs: &[ArcRow], xs: Links, per: Links) -> bool
    requires { list_of xs ≡ arcs_of arcs.now (list_of per) }
    ensures { (vs : Table) (ps : List (List Float)) (es fs : Table) (ks : List ℕ) →
        result ≡ Insert.conflict (mesh vs ps arcs.now es fs ks) (list_of per) }
{
    conflict(arcs, items(&xs), items(&per))
}

// Whether pair i of a perimeter is in one spot.
fn in_one_spot(positions: &[PositionRow], per: &[u32], i: usize) -> bool
    requires { i < length per.now }
    ensures { result ≡ same_place (position_at positions.now (get_or per.now i 0))
        (position_at positions.now (get_or per.now (after (length per.now) i) 0)) }
{
    let here = points::position_at(positions, per[i]);
    let next = points::position_at(positions, per[lists::place_after(per.len(), i)]);
    points::same_place(here, next)
}

// Whether some pair is, the last and first too.
fn has_hair(positions: &[PositionRow], per: &[u32]) -> bool
    ensures { (vs ar es fs : Table) (ks : List ℕ) → result ≡ Insert.has_hair (mesh vs positions.now ar es fs ks) per.now }
{
    for i in 0..per.len() {
        if in_one_spot(positions, per, i) {
            return true;
        }
    }
    false
}

// The checks before any arc is looked for. What names the vertices is a list of keys, or of links.
fn named(positions: &[PositionRow], names: Links, per: Links) -> Result<(), Refusal>
    ensures { (vs ar es fs : Table) (ks : List ℕ) → allowed result ≡ named_so (mesh vs positions.now ar es fs ks) (list_of names) (list_of per) }
{
    let malformed = lists::is_malformed(names);
    let unknown = lists::has_from(per, 0, 0);
    if malformed {
        return Err(Refusal::TopologyMalformed);
    }
    if unknown {
        return Err(Refusal::TopologyNotFound);
    }
    if has_hair(positions, items(&per)) {
        return Err(Refusal::SamePlace);
    }
    Ok(())
}

// All of them, in order. xs are the arcs of the perimeter's pairs.
pub fn insert_checks_by(
    positions: &[PositionRow],
    arcs: &[ArcRow],
    xs: Links,
    names: Links,
    per: Links,
) -> Result<(), Refusal>
    requires { list_of xs ≡ arcs_of arcs.now (list_of per) }
    ensures { (vs es fs : Table) (ks : List ℕ) →
        allowed result ≡ Insert.insert_checks (mesh vs positions.now arcs.now es fs ks) (list_of names) (list_of per) }
{
    named(positions, names, per)?;
    if conflict_by(arcs, xs, per) {
        return Err(Refusal::TopologyConflict);
    }
    Ok(())
}

// Rule 5's checks. The perimeter's arcs are looked for only where the checks before the conflicts have passed.
pub fn insert_checks(
    positions: &[PositionRow],
    arcs: &[ArcRow],
    names: Links,
    per: Links,
) -> Result<(), Refusal>
    ensures { (vs es fs : Table) (ks : List ℕ) →
        allowed result ≡ Insert.insert_checks (mesh vs positions.now arcs.now es fs ks) (list_of names) (list_of per) }
{
    named(positions, names, per)?;
    lists::known_few(per);
    let xs = pairs::perimeter_arcs(arcs, per);
    if conflict_by(arcs, xs, per) {
        return Err(Refusal::TopologyConflict);
    }
    Ok(())
}

// ---- what an insert needs

// How many of these are none.
fn none_among(xs: &[u32]) -> usize
    ensures { result ≡ length (filter (λ x. eqb x 0) xs.now) }
{
    xs.iter().filter(|x| **x == 0).count()
}

// How many pairs have no arc: each needs an edge.
pub fn pairs_without(arcs: &[ArcRow], per: Links) -> usize
    ensures { (vs : Table) (ps : List (List Float)) (es fs : Table) (ks : List ℕ) →
        result ≡ pairs_without (mesh vs ps arcs.now es fs ks) (list_of per) }
{
    lists::known_few(per);
    let xs = pairs::perimeter_arcs(arcs, per);
    none_among(items(&xs))
}
