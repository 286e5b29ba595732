// What is decided before the first change, and whether a call can begin. Document 01's answers 1, 2, the Rust's checks before its first
// change, 2 for moved coordinates, and 7, in that order.

ghost use Rattle.std.specs.Prelude.{◌≡◌, ◌&&◌, ℕ, ◌≤◌, length};
ghost use Rattle.rules.specs.declared.Edit.TheVariants.{FaceInsert};
ghost use Rattle.rules.specs.Lent.{mesh_in, room_in, allowed};
ghost use Rattle.rules.specs.Call.{ready, room_enough, room_for, need};
ghost use Rattle.order.specs.Transaction.{before_work};

use rules::{Edit, MeshRef, Refusal, RoomRef};
use tables::sets;

// Whether neither room is too small.
fn room_enough(mesh: MeshRef, room1: RoomRef, room2: RoomRef) -> bool
    ensures { result ≡ (room_enough (mesh_in mesh.entry) (room_in room1.entry) && room_enough (mesh_in mesh.entry) (room_in room2.entry)) }
{
    sets::room_enough(mesh, room1) && sets::room_enough(mesh, room2)
}

// Sizes, limits and soundness of the mesh, and rooms that are not too small.
pub fn is_ready(mesh: MeshRef, room1: RoomRef, room2: RoomRef) -> bool
    ensures { result ≡ ready (mesh_in mesh.entry) (room_in room1.entry) (room_in room2.entry) }
{
    room_enough(mesh, room1, room2) && sound::queries::is_sound(mesh)
}

// 7: whether there is room for what the edit needs, where a face insert has at most 64 keys. The most that it can need is asked first, since that
// is told without a search; only where the most is not there is the need itself counted.
fn has_room(mesh: MeshRef, edit: Edit, keys: &[u32]) -> bool
    ensures { ((mark : ℕ) → edit ≡ FaceInsert mark → length keys.now ≤ 64) →
        result ≡ room_for (mesh_in mesh.entry) (need (mesh_in mesh.entry) edit keys.now) }
{
    let most = checks::call::most_of(mesh.arcs, mesh.faces, edit, keys);
    checks::call::room_for(mesh, most)
        || checks::call::room_for(mesh, checks::call::need_of(mesh, edit, keys))
}

// What is decided before the first change: a refusal, or done.
pub fn decide(mesh: MeshRef, edit: Edit, keys: &[u32]) -> Result<(), Refusal>
    ensures { allowed result ≡ before_work (mesh_in mesh.entry) edit keys.now }
{
    if !checks::call::given(edit, keys) {
        return Err(Refusal::Argument);
    }
    checks::call::checks_of(mesh, edit, keys)?;
    if !checks::call::moves_finite(mesh, edit) {
        return Err(Refusal::Argument);
    }
    if !has_room(mesh, edit, keys) {
        return Err(Refusal::NoRoom);
    }
    Ok(())
}
