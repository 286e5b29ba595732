// The mesh that a file holds, filled into a room that is as long as the tables, judged there, and copied over where it is sound. Request L3: "12 for an unsound
// mesh"; a refusal leaves the mesh and its counters as they stood.

ghost use mathlib.Core.Path.{◌≡◌};
ghost use mathlib.Core.Bool.{true};
ghost use lib.Dec.{T};
ghost use Rattle.rules.specs.Lent.{SameMesh, SameRoom, mesh_in, mesh_of, room_in, room_of, tables_of};
ghost use Rattle.rules.specs.Sound.{within_limits};
ghost use Rattle.file.specs.File.{contents_in, tables_hold};
ghost use Rattle.fills.specs.Fills.{as_mesh};
ghost use Rattle.verdicts.specs.Verdicts.{SameSize, taken, taken_of, judged};
ghost use Rattle.verdicts.specs.Refusals.{number_of};

use crate::decide;
use crate::refusals::ReadRefusal;
use fills::holding::StorableFile;
use fills::{cells, fill};
use rules::{MeshMut, MeshRef, RoomMut, RoomRef};
use tables::sets;

// A room with counters, as a mesh to be read.
fn seen<'a>(room: RoomRef<'a>, counters: &'a [u32; 3]) -> MeshRef<'a>
    ensures { mesh_in result ≡ as_mesh (room_in room.entry) counters.now }
{
    MeshRef {
        vertices: room.vertices,
        positions: room.positions,
        arcs: room.arcs,
        edges: room.edges,
        faces: room.faces,
        counters,
    }
}

// The mesh that the file holds, in room that is as long as the tables; copied over them where it is sound, else 12.
fn settle(mesh: &mut MeshMut, room: &mut RoomMut, file: StorableFile) -> Result<(), ReadRefusal>
    requires few { T (tables_hold (mesh_of mesh.old) (contents_in file.whole.file.text.now)) }
    requires counters_value { within_limits (mesh_of mesh.old) ≡ true }
    requires same_size { SameSize (tables_of (mesh_of mesh.old)) (room_of room.old) }
    ensures judged { taken (number_of result) (mesh_of mesh.new) ≡ judged (mesh_of mesh.old) file.entry.whole.file.text.now }
    ensures same { SameMesh mesh.old mesh.new }
    ensures same_room { SameRoom room.old room.new }
{
    fill::fill_room(room, file);
    let counters = cells::counters(file.whole.file.text);
    let found = seen(room.view(), &counters);
    if !sound::queries::is_sound(found) {
        return Err(ReadRefusal::Unsound);
    }
    // Kept: copy_set on a room of the reborrowed fields was tried, and the proof didn't close: what it leaves there is not told of the mesh.
    sets::copy(mesh.vertices, found.vertices);
    sets::copy(mesh.positions, found.positions);
    sets::copy(mesh.arcs, found.arcs);
    sets::copy(mesh.edges, found.edges);
    sets::copy(mesh.faces, found.faces);
    *mesh.counters = counters;
    Ok(())
}

// A file read, in room that is as long as the tables.
pub fn read_in_room(mesh: &mut MeshMut, room: &mut RoomMut, text: &[u8]) -> Result<(), ReadRefusal>
    requires counters_value { within_limits (mesh_of mesh.old) ≡ true }
    requires same_size { SameSize (tables_of (mesh_of mesh.old)) (room_of room.old) }
    ensures taken { taken (number_of result) (mesh_of mesh.new) ≡ taken_of (mesh_of mesh.old) text.now }
    ensures same { SameMesh mesh.old mesh.new }
    ensures same_room { SameRoom room.old room.new }
{
    let file = decide::decide(mesh.view(), text)?;
    settle(mesh, room, file)
}
