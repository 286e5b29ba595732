// One line of a script: what it says is done by one call, and the answer is written.
// It carries document 01's "one line a call" and "It prints `ok` with the keys returned (the mark for `r`, none for `b`) or `no` with
// the number".

ghost use Rattle.std.specs.Prelude.{◌≡◌, ◌+◌, ◌≤◌, length};
ghost use Rattle.script.specs.Texts.{written};
ghost use Rattle.runs.specs.Run.{ran_line, printed, printed_at};
ghost use Rattle.rules.specs.Lent.{SameMesh, SameRoom, mesh_of, room_of};

use mesh::call;
use rules::{Call, MeshMut, RoomMut};
use script::{lines, texts};

// What the line leaves is `ran_line`, for every lent mesh and room, and its text stands in the lent bytes from a place on.
pub fn run_line(
    mesh: &mut MeshMut,
    room1: &mut RoomMut,
    room2: &mut RoomMut,
    line: &[u8],
    out: &mut [u8],
    at: usize,
) -> usize
    requires { at + 64 ≤ length out.old }
    ensures same { SameMesh mesh.old mesh.new }
    ensures same1 { SameRoom room1.old room1.new }
    ensures same2 { SameRoom room2.old room2.new }
    ensures line_after { printed (written out.new result) (mesh_of mesh.new) (room_of room1.new) (room_of room2.new)
        ≡ printed_at out.old at (ran_line (mesh_of mesh.old) (room_of room1.old) (room_of room2.old) line.now) }
    ensures short { result ≤ at + 64 }
{
    let Some(parsed) = lines::read_line(line) else {
        return texts::put_unreadable(out, at);
    };
    let edit = parsed.edit;
    let keys = &parsed.keys[..parsed.count];
    let answer = call::change(mesh, room1, room2, Call { edit }, keys);
    texts::put_answer(out, at, edit, answer)
}
