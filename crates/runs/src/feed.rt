// A chunk of input: each line that ends in it is run, and what is left is held for the next chunk.

ghost use Rattle.std.specs.Prelude.{◌≡◌, ◌+◌, ◌*◌, ◌≤◌, ◌<◌, length, take, cond, eqb};
ghost use Rattle.script.specs.Texts.{written};
ghost use Rattle.runs.specs.Gather.{cut_byte, lacking};
ghost use Rattle.runs.specs.Feed.{handed, handed_at, ran_on, unwritten, fed};
ghost use Rattle.rules.specs.Lent.{SameMesh, SameRoom, mesh_of, room_of};

use crate::held::Held;
use crate::run;
use rules::{MeshMut, RoomMut};

// One byte: a newline ends the line that is held, which is run; any other is held.
fn feed_byte(
    mesh: &mut MeshMut,
    room1: &mut RoomMut,
    room2: &mut RoomMut,
    b: u8,
    line: &mut Held,
    out: &mut [u8],
    at: usize,
) -> usize
    requires { at + 64 ≤ length out.old }
    ensures same { SameMesh mesh.old mesh.new }
    ensures same1 { SameRoom room1.old room1.new }
    ensures same2 { SameRoom room2.old room2.new }
    ensures fed_after { handed (written out.new result) (mesh_of mesh.new) (room_of room1.new) (room_of room2.new) line.new
        ≡ handed_at out.old at (cut_byte ran_on (unwritten (mesh_of mesh.old) (room_of room1.old) (room_of room2.old) line.old) b) }
    ensures short { result ≤ at + 64 }
{
    if b != b'\n' {
        line.push(b);
        return at;
    }
    let next = run::run_line(mesh, room1, room2, line.text(), out, at);
    line.clear();
    next
}

// A whole chunk. What is written for it stands at the start of the lent bytes.
pub fn feed(
    mesh: &mut MeshMut,
    room1: &mut RoomMut,
    room2: &mut RoomMut,
    chunk: &[u8],
    line: &mut Held,
    out: &mut [u8],
) -> usize
    requires { 64 * length chunk.now ≤ length out.old }
    ensures same { SameMesh mesh.old mesh.new }
    ensures same1 { SameRoom room1.old room1.new }
    ensures same2 { SameRoom room2.old room2.new }
    ensures fed_after { handed (written out.new result) (mesh_of mesh.new) (room_of room1.new) (room_of room2.new) line.new
        ≡ handed_at out.old 0 (fed (unwritten (mesh_of mesh.old) (room_of room1.old) (room_of room2.old) line.old) chunk.now) }
    ensures short { result ≤ 64 * length chunk.now }
{
    let mut at: usize = 0;
    for &b in chunk {
        at = feed_byte(mesh, room1, room2, b, line, out, at);
    }
    at
}

// How many bytes of a chunk are fed: those that were read, or at the end of the input the newline that an unended line lacks, of which so many are held.
pub fn closed(chunk: &mut [u8], read: usize, held: usize) -> usize
    requires { (0 < length chunk.old) × (read ≤ length chunk.old) }
    ensures chunk_after { take result chunk.new ≡ cond (eqb read 0) (lacking held) (take read chunk.old) }
    ensures within { result ≤ length chunk.new }
{
    if read != 0 {
        return read;
    }
    if held == 0 {
        return 0;
    }
    chunk[0] = b'\n';
    1
}
