// The checks of an extrude and of an arc extrude, and whether moved coordinates are finite. Document 01's rule 10, "Arc extrude of an arc with a
// face is 5", answer 4 for "an unknown face or arc", and answer 2 for a "moved coordinate that is not finite".

ghost use Rattle.std.specs.Prelude.{◌≡◌, List, ℕ, Float};
ghost use Rattle.rules.specs.Lent.{allowed};
ghost use Rattle.rules.specs.Table.{Table};
ghost use Rattle.rules.specs.Mesh.{mesh, list_of};
ghost use Rattle.rules.specs.Point.{finite_position};
ghost use Rattle.rules.specs.Edit as Edit;
ghost use Rattle.rules.specs.Extrude as Extrude;

use rules::{ArcRow, Links, Move, PositionRow, Refusal};
use tables::{points, rows};

// An unknown face or arc is 4.
pub fn known(l: u32) -> Result<(), Refusal>
    ensures { allowed result ≡ Edit.known l }
{
    if l == 0 {
        return Err(Refusal::TopologyNotFound);
    }
    Ok(())
}

// An arc with a face is 5.
pub fn arc_extrude_checks(arcs: &[ArcRow], x: u32) -> Result<(), Refusal>
    ensures { (vs : Table) (ps : List (List Float)) (es fs : Table) (ks : List ℕ) →
        allowed result ≡ Extrude.arc_extrude_checks (mesh vs ps arcs.now es fs ks) x }
{
    known(x)?;
    if rows::cell(arcs, x, 4) != 0 {
        return Err(Refusal::TopologyConflict);
    }
    Ok(())
}

// ---- moved coordinates

// Whether the vertex v, moved, has finite coordinates.
pub fn one_finite(positions: &[PositionRow], mv: Move, v: u32) -> bool
    ensures { (vs ar es fs : Table) (ks : List ℕ) → result ≡ finite_position (Extrude.moved_position (mesh vs positions.now ar es fs ks) mv v) }
{
    points::finite_position(points::moved(points::position_at(positions, v), mv))
}

// Whether all vertices of a list, moved, have finite coordinates.
pub fn moved_finite(positions: &[PositionRow], mv: Move, list: Links) -> bool
    ensures { (vs ar es fs : Table) (ks : List ℕ) → result ≡ Extrude.moved_finite (mesh vs positions.now ar es fs ks) mv (list_of list) }
{
    for i in 0..lists::size(list) {
        if !one_finite(positions, mv, lists::item(list, i)) {
            return false;
        }
    }
    true
}
