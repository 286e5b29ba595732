// A call of any edit with its answer as numbers, and what it leaves: what each exported call is made of.

ghost use Rattle.std.specs.Prelude.{◌≡◌};
ghost use Rattle.rules.specs.Call.{called, call};
ghost use Rattle.rules.specs.Lent.{mesh_of, room_of, SameMesh, SameRoom};
ghost use Rattle.calls.specs.Replied.{shown, replied};

use mesh::call;
use rules::{Call, Edit, MeshMut, Reply, RoomMut};
use tables::answers;

pub fn changed(
    mesh: &mut MeshMut,
    one: &mut RoomMut,
    two: &mut RoomMut,
    edit: Edit,
    keys: &[u32],
) -> Reply
    ensures shown { shown result (mesh_of mesh.new) (room_of one.new) (room_of two.new)
        ≡ replied (called (mesh_of mesh.old) (room_of one.old) (room_of two.old) (call edit) keys.now) }
    ensures same { SameMesh mesh.old mesh.new }
    ensures room1 { SameRoom one.old one.new }
    ensures room2 { SameRoom two.old two.new }
{
    answers::told(call::change(mesh, one, two, Call { edit }, keys))
}
