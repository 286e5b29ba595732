// The rooms: an edit works in room one, on a copy of the mesh, which is copied over only when the edit is accepted; and both rooms when a call ends. Document 01:
// "`Transact` becomes work in lent room, copied over only when accepted", and "Working room ends all zero, accepted or not".

ghost use Rattle.std.specs.Prelude.{◌≡◌, option_copied};
ghost use Rattle.rules.specs.Lent.{mesh_in, mesh_of, room_in, room_of, tables_of, SameMesh, SameRoom};
ghost use Rattle.rules.specs.Call.{zeroed};
ghost use Rattle.nearby.specs.Rows.{DifferNear};
ghost use Rattle.order.specs.Transaction.{SameSize, with_counters};

use nearby::rows;
use rules::{MeshMut, MeshRef, RoomMut, RoomRef};
use tables::sets;

// The mesh copied into room that is as long.
pub fn copy_in(room: &mut RoomMut, mesh: MeshRef)
    requires { SameSize (tables_of (mesh_in mesh)) (room_of room.old) }
    ensures value { room_of room.new ≡ tables_of (mesh_in mesh.entry) }
    ensures same { SameRoom room.old room.new }
{
    sets::copy_set(room, mesh);
}

// What an accepted edit left in that room, copied over the mesh. Of the arcs only those listed near the edit and those of new edges can differ.
pub fn copy_over(mesh: &mut MeshMut, room: RoomRef, near: Option<&[u32]>)
    requires same_size { SameSize (tables_of (mesh_of mesh.old)) (room_in room) }
    requires differ_near { DifferNear room.arcs.now mesh.old.arcs.now (option_copied near) room.edges.now mesh.old.edges.now }
    ensures value { mesh_of mesh.new ≡ with_counters (room_in room.entry) mesh.old.counters.now }
    ensures same { SameMesh mesh.old mesh.new }
{
    rows::copy_over(mesh, room, near);
    sets::copy(mesh.vertices, room.vertices);
    sets::copy(mesh.positions, room.positions);
    sets::copy(mesh.edges, room.edges);
    sets::copy(mesh.faces, room.faces);
}

// Every row of both rooms becomes zero.
pub fn clear(room1: &mut RoomMut, room2: &mut RoomMut)
    ensures one { room_of room1.new ≡ zeroed (room_of room1.old) }
    ensures two { room_of room2.new ≡ zeroed (room_of room2.old) }
    ensures same1 { SameRoom room1.old room1.new }
    ensures same2 { SameRoom room2.old room2.new }
{
    sets::zero_set(room1);
    sets::zero_set(room2);
}
