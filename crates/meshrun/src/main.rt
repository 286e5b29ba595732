// Document 01's script program: it reads standard input, one line a call, and writes an answer for each, and last `end` with the counts of
// vertices, edges, faces. Its tables have 64 vertices, 128 edges and 64 faces.

#![tactic(auto)]

ghost use Rattle.rules.specs.Lent.{SameMesh, mesh_of};
ghost use Rattle.runs.specs.Sizes.{ScriptSizes};

use rules::MeshMut;
use runs::{ANSWERS, Tables};
use std::io;
use std::io::{Read, Write};

// A whole script, and its last line.
fn run<R: Read, W: Write>(
    reader: &mut R,
    writer: &mut W,
    mesh: &mut MeshMut,
    out: &mut [u8; ANSWERS],
) -> io::Result<()>
    requires { ScriptSizes (mesh_of mesh.old) }
    ensures { SameMesh mesh.old mesh.new }
{
    input::run_script(reader, writer, mesh, out)?;
    input::write_end(writer, mesh.view(), out)
}

fn main(rt: HostRuntime) -> io::Result<()> {
    let mut reader = rt.stdin();
    let mut writer = rt.stdout();
    let mut out = [0u8; ANSWERS];
    let mut tables = Tables::empty();
    let mut mesh = MeshMut {
        vertices: &mut tables.vertices,
        positions: &mut tables.positions,
        arcs: &mut tables.arcs,
        edges: &mut tables.edges,
        faces: &mut tables.faces,
        counters: &mut tables.counters,
    };
    run(&mut reader, &mut writer, &mut mesh, &mut out)
}
