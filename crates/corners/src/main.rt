// Runs document 01's corners that are not starred, each from an empty mesh, and prints a line for each: `ok`, or what differs.

#![tactic(auto)]

mod asked; // asked.rt: the lines of each corner, with their answers
mod texts; // texts.rt: the texts of a line and of an answer

ghost use Rattle.std.specs.Prelude.{◌≤◌, length};
ghost use Rattle.rules.specs.Lent.{SameMesh, mesh_of};
ghost use Rattle.runs.specs.Sizes.{ScriptSizes};

use asked::{Asked, Corner};
use rules::{MeshMut, MeshRef};
use runs::{Tables, counts};
use std::io;

// ---- what each corner is

fn name_of(rt: &impl Print, corner: Corner) -> io::Result<()> {
    match corner {
        Corner::LoneTriangle => {
            print!(rt; "Lone triangle extruded: 6 vertices, 9 edges, 4 faces. ")
        }
        Corner::LargeRing => print!(rt; "A ring of 64 accepted, 65 keys 2. "),
        Corner::LastRow => print!(rt; "The last free face row used; one fewer, 7. "),
    }
}

// The last line that is wanted.
fn put_end_of(corner: Corner, out: &mut [u8]) -> usize
    requires { 64 ≤ length out.old }
    ensures { result ≤ 64 }
{
    match corner {
        Corner::LoneTriangle => script::texts::put_end(out, 0, 6, 9, 4),
        Corner::LargeRing => script::texts::put_end(out, 0, 64, 64, 1),
        Corner::LastRow => script::texts::put_end(out, 0, 62, 124, 64),
    }
}

// ---- what comes of it

// Whether the text is the one wanted; if not, both are printed.
fn held_to(rt: &impl Print, text: &[u8], wanted: &[u8]) -> io::Result<bool> {
    if text == wanted {
        return Ok(true);
    }
    rt.write_all(b"wanted: ")?;
    rt.write_all(wanted)?;
    rt.write_all(b"printed: ")?;
    rt.write_all(text)?;
    Ok(false)
}

// One line, run and held to its answer.
fn ask(rt: &impl Print, mesh: &mut MeshMut, a: Asked) -> io::Result<bool>
    ensures { SameMesh mesh.old mesh.new }
{
    let mut line = [0u8; texts::ROOM];
    let mut wanted = [0u8; texts::ROOM];
    let mut out = [0u8; 64];
    let n = texts::put_line(&mut line, a);
    let w = texts::put_wanted(&mut wanted, a);
    let m = asking::ask(mesh, &line[..n], &mut out);
    held_to(rt, &out[..m], &wanted[..w])
}

// All lines of a corner, up to the first that is answered otherwise.
fn ask_all(rt: &impl Print, mesh: &mut MeshMut, corner: Corner) -> io::Result<bool>
    requires { ScriptSizes (mesh_of mesh.old) }
    ensures { SameMesh mesh.old mesh.new }
{
    for at in 0..asked::lines_of(corner) {
        if !ask(rt, mesh, asked::asked_at(corner, at))? {
            return Ok(false);
        }
    }
    Ok(true)
}

// The counts after a corner's lines, held to those wanted.
fn end_of(rt: &impl Print, m: MeshRef, corner: Corner) -> io::Result<bool>
    requires vertices_len_bound { (length m.vertices.now ≤ 8192) × (length m.edges.now ≤ 8192) }
    requires faces_len_bound { length m.faces.now ≤ 8192 }
{
    let mut out = [0u8; 64];
    let mut wanted = [0u8; 64];
    let n = counts::put_counts(m, &mut out);
    let w = put_end_of(corner, &mut wanted);
    held_to(rt, &out[..n], &wanted[..w])
}

// A corner, from an empty mesh.
fn run_corner(rt: &impl Print, corner: Corner) -> io::Result<()> {
    let mut tables = Tables::empty();
    let mut mesh = MeshMut {
        vertices: &mut tables.vertices,
        positions: &mut tables.positions,
        arcs: &mut tables.arcs,
        edges: &mut tables.edges,
        faces: &mut tables.faces,
        counters: &mut tables.counters,
    };
    name_of(rt, corner)?;
    if !ask_all(rt, &mut mesh, corner)? {
        return Ok(());
    }
    let after = MeshRef {
        vertices: &tables.vertices,
        positions: &tables.positions,
        arcs: &tables.arcs,
        edges: &tables.edges,
        faces: &tables.faces,
        counters: &tables.counters,
    };
    if end_of(rt, after, corner)? {
        println!(rt; "ok")?;
    }
    Ok(())
}

fn main(rt: HostRuntime) -> io::Result<()> {
    for corner in [Corner::LoneTriangle, Corner::LargeRing, Corner::LastRow] {
        run_corner(&rt, corner)?;
    }
    Ok(())
}
