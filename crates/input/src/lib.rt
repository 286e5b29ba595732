// What meshrun and meshdump share: an input is read in chunks to its end, each line is run, and the answers are written, a chunk's at a
// time. What a chunk leaves and writes is proved in the crate runs; no contract says what is read or written. The programs lend standard
// input and standard output. A read or a write that fails ends the run with its error.

#![tactic(auto)]

ghost use Rattle.std.specs.Prelude.{◌≤◌, length};
ghost use Rattle.rules.specs.Lent.{SameMesh, SameRoom, mesh_of, room_of};
ghost use Rattle.input.specs.Turning.{LeftBySome};

use rules::{MeshMut, MeshRef, RoomMut};
use runs::held::Held;
use runs::{ANSWERS, CHUNK, Tables, counts, feed};
use std::io;
use std::io::{Read, Write};

// One chunk: read, run, and its answers written; and whether the input ended. Where the read fails all is as it was, and where the write
// fails the chunk was run.
fn turn<R: Read, W: Write>(
    reader: &mut R,
    writer: &mut W,
    mesh: &mut MeshMut,
    room1: &mut RoomMut,
    room2: &mut RoomMut,
    line: &mut Held,
    out: &mut [u8; ANSWERS],
) -> io::Result<bool>
    ensures same { SameMesh mesh.old mesh.new }
    ensures same1 { SameRoom room1.old room1.new }
    ensures same2 { SameRoom room2.old room2.new }
    ensures left { LeftBySome (mesh_of mesh.old) (room_of room1.old) (room_of room2.old) line.old (mesh_of mesh.new) (room_of room1.new) (room_of room2.new) }
{
    let mut chunk = [0u8; CHUNK];
    let read = reader.read(&mut chunk)?;
    let n = feed::closed(&mut chunk, read, line.len());
    let at = feed::feed(mesh, room1, room2, &chunk[..n], line, out);
    writer.write_all(&out[..at])?;
    Ok(read == 0)
}

// The whole input. A proved loop has to end, and nothing says that an input does, so the turns are counted up to a number that no run
// reaches.
fn run_input<R: Read, W: Write>(
    reader: &mut R,
    writer: &mut W,
    mesh: &mut MeshMut,
    room1: &mut RoomMut,
    room2: &mut RoomMut,
    line: &mut Held,
    out: &mut [u8; ANSWERS],
) -> io::Result<()>
    ensures same { SameMesh mesh.old mesh.new }
    ensures same1 { SameRoom room1.old room1.new }
    ensures same2 { SameRoom room2.old room2.new }
{
    for _ in 0..u64::MAX {
        if turn(reader, writer, mesh, room1, room2, line, out)? {
            return Ok(());
        }
    }
    Ok(())
}

// A whole script on the lent mesh, with working room of its own: read to the reader's end, and its answers written.
pub fn run_script<R: Read, W: Write>(
    reader: &mut R,
    writer: &mut W,
    mesh: &mut MeshMut,
    out: &mut [u8; ANSWERS],
) -> io::Result<()>
    ensures { SameMesh mesh.old mesh.new }
{
    let mut one = Tables::empty();
    let mut two = Tables::empty();
    let mut room1 = RoomMut {
        vertices: &mut one.vertices,
        positions: &mut one.positions,
        arcs: &mut one.arcs,
        edges: &mut one.edges,
        faces: &mut one.faces,
    };
    let mut room2 = RoomMut {
        vertices: &mut two.vertices,
        positions: &mut two.positions,
        arcs: &mut two.arcs,
        edges: &mut two.edges,
        faces: &mut two.faces,
    };
    let mut line = Held::new();
    run_input(reader, writer, mesh, &mut room1, &mut room2, &mut line, out)
}

// The check, and unless it answers 1 the last line, `end` with the counts of vertices, edges, faces.
pub fn write_end<W: Write>(writer: &mut W, mesh: MeshRef, out: &mut [u8; ANSWERS]) -> io::Result<()>
    requires vertices_len_bound { (length mesh.vertices.now ≤ 8192) × (length mesh.edges.now ≤ 8192) }
    requires faces_len_bound { length mesh.faces.now ≤ 8192 }
{
    let n = counts::put_counts(mesh, out);
    writer.write_all(&out[..n])
}
