// The call that reads a mesh from a file. Request L3: "1 for sizes of tables or room" comes first; what the lent tables held does not matter. A refusal
// leaves the mesh and its counters as they stood; both rooms end zero, but for 1, which leaves them untouched.

ghost use mathlib.Core.Path.{◌≡◌};
ghost use mathlib.Core.Bool.{true};
ghost use Rattle.rules.specs.Mesh.{room};
ghost use Rattle.rules.specs.Lent.{SameMesh, SameRoom, mesh_in, mesh_of, room_in, room_of, tables_of};
ghost use Rattle.rules.specs.Sound.{within_limits};
ghost use Rattle.rules.specs.Call.{zeroed};
ghost use Rattle.file.specs.File.{sizes_serve, read_file};
ghost use Rattle.verdicts.specs.Verdicts.{taken, taken_of};
ghost use Rattle.verdicts.specs.Refusals.{number_of};
ghost use Rattle.reads.specs.Reads.{Fits, file_read};

use rules::{ArcRow, EdgeRow, FaceRow, MeshMut, MeshRef, PositionRow, RoomMut, RoomRef, VertexRow};
use tables::sets;
use verdicts::refusals::ReadRefusal;
use verdicts::settle;

// 1: whether the tables are within the limits, and no table of a room is shorter.
#[tactic(auto, unfolding(file::specs::File::sizes_serve))]
fn sizes_serve(mesh: MeshRef, room1: RoomRef, room2: RoomRef) -> bool
    ensures { result ≡ sizes_serve (mesh_in mesh.entry) (room_in room1.entry) (room_in room2.entry) }
{
    sets::within_limits(mesh) && sets::room_enough(mesh, room1) && sets::room_enough(mesh, room2)
}

// A file read, with room that may be larger than the tables: in the parts of it that are as long.
// Kept: five tables, since a part of a table that is a field cannot be lent while another field is used.
fn read_in_first(
    mesh: &mut MeshMut,
    v: &mut [VertexRow],
    p: &mut [PositionRow],
    a: &mut [ArcRow],
    e: &mut [EdgeRow],
    f: &mut [FaceRow],
    text: &[u8],
) -> Result<(), ReadRefusal>
    requires counters_value { within_limits (mesh_of mesh.old) ≡ true }
    requires fits { Fits (tables_of (mesh_of mesh.old)) (room v.old p.old a.old e.old f.old) }
    ensures taken { taken (number_of result) (mesh_of mesh.new) ≡ taken_of (mesh_of mesh.old) text.now }
    ensures same { SameMesh mesh.old mesh.new }
{
    let nv = mesh.vertices.len();
    let np = mesh.positions.len();
    let na = mesh.arcs.len();
    let ne = mesh.edges.len();
    let nf = mesh.faces.len();
    let mut part = RoomMut {
        vertices: &mut v[..nv],
        positions: &mut p[..np],
        arcs: &mut a[..na],
        edges: &mut e[..ne],
        faces: &mut f[..nf],
    };
    settle::read_in_room(mesh, &mut part, text)
}

fn read_in_parts(mesh: &mut MeshMut, room: &mut RoomMut, text: &[u8]) -> Result<(), ReadRefusal>
    requires counters_value { within_limits (mesh_of mesh.old) ≡ true }
    requires fits { Fits (tables_of (mesh_of mesh.old)) (room_of room.old) }
    ensures taken { taken (number_of result) (mesh_of mesh.new) ≡ taken_of (mesh_of mesh.old) text.now }
    ensures same { SameMesh mesh.old mesh.new }
    ensures same_room { SameRoom room.old room.new }
{
    read_in_first(
        mesh,
        room.vertices,
        room.positions,
        room.arcs,
        room.edges,
        room.faces,
        text,
    )
}

// The call: what it answers and leaves is `read_file`, for every lent table, counter, room and text.
pub fn read_mesh(
    mesh: &mut MeshMut,
    room1: &mut RoomMut,
    room2: &mut RoomMut,
    text: &[u8],
) -> Result<(), ReadRefusal>
    ensures read { file_read (number_of result) (mesh_of mesh.new) (room_of room1.new) (room_of room2.new)
        ≡ read_file (mesh_of mesh.old) (room_of room1.old) (room_of room2.old) text.now }
    ensures same { SameMesh mesh.old mesh.new }
    ensures same_room1 { SameRoom room1.old room1.new }
    ensures same_room2 { SameRoom room2.old room2.new }
{
    if !sizes_serve(mesh.view(), room1.view(), room2.view()) {
        return Err(ReadRefusal::Sizes);
    }
    let read = read_in_parts(mesh, room1, text);
    sets::zero_set(room1);
    sets::zero_set(room2);
    read
}
