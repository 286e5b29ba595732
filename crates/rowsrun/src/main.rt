// Prints the rows of edges and faces after each of a few lines: faces removed and others put in, a split, a poke. It shows document 01's
// "A new record takes the lowest unused row; rows freed by a removed face are used again", which no record tells.

#![tactic(auto)]

mod print;

ghost use Rattle.rules.specs.Lent.{SameMesh, mesh_of};
ghost use Rattle.runs.specs.Sizes.{ScriptSizes};

use rules::MeshMut;
use runs::Tables;
use std::io;

// A line is run; then it is printed with the rows that are in use.
fn shown(rt: &impl Print, mesh: &mut MeshMut, line: &[u8]) -> io::Result<()>
    ensures { SameMesh mesh.old mesh.new }
{
    let mut answer = [0u8; 64];
    asking::ask(mesh, line, &mut answer);
    print::after(rt, line)?;
    print::rows(rt, "edge", mesh.edges)?;
    print::rows(rt, "face", mesh.faces)
}

// Lines that make what the others change.
fn drawn(rt: &impl Print, mesh: &mut MeshMut) -> io::Result<()>
    requires { ScriptSizes (mesh_of mesh.old) }
    ensures { SameMesh mesh.old mesh.new }
{
    shown(rt, mesh, b"v 0 0 0")?;
    shown(rt, mesh, b"v 4 0 0")?;
    shown(rt, mesh, b"v 4 4 0")?;
    shown(rt, mesh, b"v 0 4 0")?;
    shown(rt, mesh, b"f 7 0 1 2")?;
    shown(rt, mesh, b"f 8 0 2 3")
}

fn main(rt: HostRuntime) -> io::Result<()> {
    let mut tables = Tables::empty();
    let mut mesh = MeshMut {
        vertices: &mut tables.vertices,
        positions: &mut tables.positions,
        arcs: &mut tables.arcs,
        edges: &mut tables.edges,
        faces: &mut tables.faces,
        counters: &mut tables.counters,
    };
    drawn(&rt, &mut mesh)?;
    shown(&rt, &mut mesh, b"r 0")?;
    shown(&rt, &mut mesh, b"f 9 0 1 2")?;
    shown(&rt, &mut mesh, b"r 1")?;
    shown(&rt, &mut mesh, b"r 2")?;
    shown(&rt, &mut mesh, b"f 6 0 1 2 3")?;
    shown(&rt, &mut mesh, b"s 3 0 2")?;
    shown(&rt, &mut mesh, b"p 4 3 1 0")
}
