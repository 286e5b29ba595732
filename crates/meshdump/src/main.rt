// The script program with all records: it answers a script as meshrun does, then writes every record, sorted, and last `end` with the
// counts. By it the port is compared with the Rust record by record.

#![tactic(auto)]

ghost use Rattle.rules.specs.Lent.{SameMesh, mesh_in, mesh_of};
ghost use Rattle.listing.specs.Lines.{Listable};
ghost use Rattle.runs.specs.Sizes.{ScriptSizes};

use listing::listed;
use orders::Kind;
use rules::{MeshMut, MeshRef};
use runs::{ANSWERS, Tables};
use script::dumps;
use std::io;
use std::io::{Read, Write};

// All records of a kind.
fn write_kind<W: Write>(
    writer: &mut W,
    kind: Kind,
    mesh: MeshRef,
    out: &mut [u8; ANSWERS],
) -> io::Result<()>
    requires { Listable (mesh_in mesh) }
{
    let n = listed::put_records(kind, mesh, out);
    writer.write_all(&out[..n])
}

// The counters.
fn write_counters<W: Write>(
    writer: &mut W,
    counters: &[u32; 3],
    out: &mut [u8; ANSWERS],
) -> io::Result<()> {
    let n = dumps::put_counters(out, 0, counters[0], counters[1], counters[2]);
    writer.write_all(&out[..n])
}

// All records.
fn write_records<W: Write>(writer: &mut W, mesh: MeshRef, out: &mut [u8; ANSWERS]) -> io::Result<()>
    requires { Listable (mesh_in mesh) }
{
    for kind in [Kind::Vertices, Kind::Arcs, Kind::Edges, Kind::Faces] {
        write_kind(writer, kind, mesh, out)?;
    }
    write_counters(writer, mesh.counters, out)
}

// A whole script, all records, and the last line.
fn run<R: Read, W: Write>(
    reader: &mut R,
    writer: &mut W,
    mesh: &mut MeshMut,
    out: &mut [u8; ANSWERS],
) -> io::Result<()>
    requires { ScriptSizes (mesh_of mesh.old) }
    ensures { SameMesh mesh.old mesh.new }
{
    input::run_script(reader, writer, mesh, out)?;
    write_records(writer, mesh.view(), out)?;
    input::write_end(writer, mesh.view(), out)
}

fn main(rt: HostRuntime) -> io::Result<()> {
    let mut reader = rt.stdin();
    let mut writer = rt.stdout();
    let mut out = [0u8; ANSWERS];
    let mut tables = Tables::empty();
    let mut mesh = MeshMut {
        vertices: &mut tables.vertices,
        positions: &mut tables.positions,
        arcs: &mut tables.arcs,
        edges: &mut tables.edges,
        faces: &mut tables.faces,
        counters: &mut tables.counters,
    };
    run(&mut reader, &mut writer, &mut mesh, &mut out)
}
