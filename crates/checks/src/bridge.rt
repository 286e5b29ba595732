// The checks of an arc bridge and of a bridge. Document 01's rule 8, "Unknown arcs 4; the four corners (a,b,c,d) stand together as one value; an
// existing arc among their pairs that has a face, 5", and rule 9, "Destination lookup, then arity, 6"; a face with itself is 4, after 6.

ghost use Rattle.std.specs.Prelude.{◌≡◌, List, ℕ, length, Float};
ghost use Rattle.rules.specs.Lent.{allowed};
ghost use Rattle.rules.specs.Table.{Table, some_below};
ghost use Rattle.rules.specs.Mesh.{mesh, links_of, list_of};
ghost use Rattle.rules.specs.Insert.{has_face};
ghost use Rattle.rules.specs.Edit as Edit;
ghost use Rattle.pairs.specs.Pairs.{arcs_of};
ghost use Rattle.checks.specs.Between.{one_of, other_of, Told, Cornered};

use crate::{insert, rings};
use rules::{ArcRow, FaceRow, Links, PositionRow, Refusal};
use tables::rows;

// ---- the four corners

// Source and destination of the one arc, then of the other.
pub fn corners_of(arcs: &[ArcRow], x: u32, y: u32) -> [u32; 4]
    ensures { (vs : Table) (ps : List (List Float)) (es fs : Table) (ks : List ℕ) → result ≡ Edit.corners (mesh vs ps arcs.now es fs ks) x y }
{
    let a = rows::cell(arcs, x, 0);
    let b = rows::cell(arcs, x, 1);
    let c = rows::cell(arcs, y, 0);
    let d = rows::cell(arcs, y, 1);
    [a, b, c, d]
}

// Says only that there are four.
fn known_four(four: [u32; 4])
    ensures { length four ≡ 4 }
{}

// They as a list.
pub fn corner_list(four: [u32; 4]) -> Links
    ensures { result ≡ links_of four }
{
    lists::from_keys(&four)
}

// ---- two arcs to be bridged, by their vertices

// The arcs, four vertices as a list, and the arcs of their pairs.
#[derive(Clone, Copy)]
pub struct Between {
    pub x: u32,
    pub y: u32,
    pub per: Links,
    pub found: Links,
}

// The arcs from the first vertex to the second and from the third to the fourth are among those of the pairs, so all are found at once. Where both
// are there, the four vertices are their corners.
fn arcs_between(arcs: &[ArcRow], four: [u32; 4]) -> Between
    ensures { Told arcs.now four result × ((result.x ≡ 0 → ⊥) → (result.y ≡ 0 → ⊥) → Cornered arcs.now result) }
{
    known_four(four);
    let per = corner_list(four);
    let found = pairs::perimeter_arcs(arcs, per);
    let x = lists::item(found, 0);
    let y = lists::item(found, 2);
    Between { x, y, per, found }
}

// Those arcs, and the corners of whatever was found: where an arc is missing, the corners that the definition names.
pub fn corners_between(arcs: &[ArcRow], four: [u32; 4]) -> Between
    ensures { Told arcs.now four result × Cornered arcs.now result }
{
    let told = arcs_between(arcs, four);
    if told.x != 0 && told.y != 0 {
        return told;
    }
    let per = corner_list(corners_of(arcs, told.x, told.y));
    lists::known_few(per);
    let found = pairs::perimeter_arcs(arcs, per);
    Between { per, found, ..told }
}

// ---- the checks

// Whether an existing arc among the pairs of four corners has a face: xs are their arcs.
pub fn corners_faced(arcs: &[ArcRow], xs: Links) -> bool
    ensures { (vs : Table) (ps : List (List Float)) (es fs : Table) (ks four : List ℕ) → list_of xs ≡ arcs_of arcs.now four →
        result ≡ some_below (has_face (mesh vs ps arcs.now es fs ks) four) 4 }
{
    for i in 0..4 {
        if insert::has_face(arcs, xs, i) {
            return true;
        }
    }
    false
}

// Those of an arc bridge, and then of the insert of its corners: xs are the arcs of their pairs.
pub fn arc_bridge_checks_by(
    positions: &[PositionRow],
    arcs: &[ArcRow],
    per: Links,
    xs: Links,
    x: u32,
    y: u32,
) -> Result<(), Refusal>
    requires per_value { (vs : Table) (ps : List (List Float)) (es fs : Table) (ks : List ℕ) → list_of per ≡ Edit.corners (mesh vs ps arcs.now es fs ks) x y }
    requires xs_value { list_of xs ≡ arcs_of arcs.now (list_of per) }
    ensures { (vs es fs : Table) (ks : List ℕ) →
        allowed result ≡ Edit.arc_bridge_checks (mesh vs positions.now arcs.now es fs ks) x y }
{
    if x == 0 || y == 0 {
        return Err(Refusal::TopologyNotFound);
    }
    if corners_faced(arcs, xs) {
        return Err(Refusal::TopologyConflict);
    }
    insert::insert_checks_by(positions, arcs, xs, per, per)
}

// Rule 8's checks of the arcs (a,b) and (c,d), given by four vertices.
pub fn arc_bridge_checks(
    positions: &[PositionRow],
    arcs: &[ArcRow],
    four: [u32; 4],
) -> Result<(), Refusal>
    ensures { (vs es fs : Table) (ks : List ℕ) →
        allowed result ≡ Edit.arc_bridge_checks (mesh vs positions.now arcs.now es fs ks) (one_of arcs.now four)
        (other_of arcs.now four) }
{
    let told = arcs_between(arcs, four);
    if told.x == 0 || told.y == 0 {
        return Err(Refusal::TopologyNotFound);
    }
    arc_bridge_checks_by(positions, arcs, told.per, told.found, told.x, told.y)
}

// Those of a bridge of two faces.
pub fn bridge_checks(arcs: &[ArcRow], faces: &[FaceRow], f: u32, g: u32) -> Result<(), Refusal>
    ensures { (vs : Table) (ps : List (List Float)) (es : Table) (ks : List ℕ) →
        allowed result ≡ Edit.bridge_checks (mesh vs ps arcs.now es faces.now ks) f g }
{
    if f == 0 || g == 0 {
        return Err(Refusal::TopologyNotFound);
    }
    if rings::arity_of(arcs, faces, f) != rings::arity_of(arcs, faces, g) {
        return Err(Refusal::ArityNonUniform);
    }
    if f == g {
        return Err(Refusal::TopologyNotFound);
    }
    Ok(())
}
