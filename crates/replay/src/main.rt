// Runs a stored list of scripts, each from an empty mesh, and holds every answer, record and count against those stored with it. A script that
// differs is printed, with the first difference; last come the numbers of scripts and of those that differ.
//
// A line of the list, by its first byte: > a line of the script; = what is printed at its end, a kind of records (V, A, E, F), the counters (C) or
// the counts; < a line that must be printed for what stands above it; # the script's name; . its end. compare/store.py writes the list.

#![tactic(auto)]

mod stand; // stand.rt: where the list stands
mod texts; // texts.rt: texts held against each other

ghost use Rattle.std.specs.Prelude.{◌≤◌, ◌<◌, length};
ghost use Rattle.rules.specs.Lent.{SameMesh, mesh_in, mesh_of};
ghost use Rattle.listing.specs.Lines.{Listable};
ghost use Rattle.runs.specs.Sizes.{ScriptSizes};

use listing::listed;
use orders::Kind;
use rules::{MeshMut, MeshRef, RoomMut};
use runs::held::Held;
use runs::{ANSWERS, CHUNK, Tables, counts};
use script::dumps;
use stand::Stand;
use std::io;
use std::io::Read;
use tables::sets;

const KEPT: usize = 65536;

// ---- the lines of the list

// A line of the script: it is run, and kept.
fn run_script_line(
    mesh: &mut MeshMut,
    line: &[u8],
    out: &mut [u8; ANSWERS],
    kept: &mut [u8; KEPT],
    s: &mut Stand,
)
    ensures { SameMesh mesh.old mesh.new }
{
    let end = asking::ask(mesh, line, out);
    s.printed(end);
    s.kept = texts::keep(kept, s.kept, line);
}

// What is printed at the script's end: all records of a kind, the counters, or the counts.
fn put_piece(m: MeshRef, line: &[u8], out: &mut [u8; ANSWERS]) -> usize
    requires { Listable (mesh_in m) }
{
    match line.first() {
        Some(b'V') => listed::put_records(Kind::Vertices, m, out),
        Some(b'A') => listed::put_records(Kind::Arcs, m, out),
        Some(b'E') => listed::put_records(Kind::Edges, m, out),
        Some(b'F') => listed::put_records(Kind::Faces, m, out),
        Some(b'C') => dumps::put_counters(out, 0, m.counters[0], m.counters[1], m.counters[2]),
        _ => counts::put_counts(m, out),
    }
}

// A line that must be printed. The first that is not is told.
fn compare_line(rt: &impl Print, line: &[u8], out: &[u8], s: &mut Stand) -> io::Result<()> {
    if s.differs {
        return Ok(());
    }
    if let Some(next) = texts::after_line(out, s.from, s.end, line) {
        s.from = next;
        return Ok(());
    }
    rt.write_all(b"wanted: ")?;
    rt.write_all(line)?;
    rt.write_all(b"\nprinted: ")?;
    texts::print_part(rt, out, s.from, s.end)?;
    rt.write_all(b"\n")?;
    s.from = s.end;
    s.differs = true;
    Ok(())
}

// The case's end: a script that differed is printed. The next one begins with empty tables.
fn end_case(rt: &impl Print, mesh: &mut MeshMut, kept: &[u8], s: &mut Stand) -> io::Result<()>
    ensures { SameMesh mesh.old mesh.new }
{
    let mut room = RoomMut {
        vertices: mesh.vertices,
        positions: mesh.positions,
        arcs: mesh.arcs,
        edges: mesh.edges,
        faces: mesh.faces,
    };
    sets::zero_set(&mut room);
    *mesh.counters = [0; 3];
    if s.differs() {
        rt.write_all(b"differs:")?;
        texts::print_part(rt, kept, 0, s.kept)?;
    }
    s.ended();
    Ok(())
}

// A whole line of the list, by its first byte.
fn take_line(
    rt: &impl Print,
    mesh: &mut MeshMut,
    kind: u8,
    line: &[u8],
    out: &mut [u8; ANSWERS],
    kept: &mut [u8; KEPT],
    s: &mut Stand,
) -> io::Result<()>
    requires { Listable (mesh_of mesh.old) }
    ensures { SameMesh mesh.old mesh.new }
{
    match kind {
        b'<' => return compare_line(rt, line, out, s),
        b'=' => {
            let end = put_piece(mesh.view(), line, out);
            s.printed(end);
        }
        b'.' => return end_case(rt, mesh, kept, s),
        b'#' => s.kept = texts::keep(kept, s.kept, line),
        _ => run_script_line(mesh, line, out, kept, s),
    }
    Ok(())
}

// ---- the list as it is read

// From a place on the first byte of a line, before which NULs are passed over, or the bytes up to the line's end, where it is taken, or to the
// chunk's: the place after them.
fn take_bytes(
    rt: &impl Print,
    mesh: &mut MeshMut,
    chunk: &[u8],
    at: usize,
    line: &mut Held,
    out: &mut [u8; ANSWERS],
    kept: &mut [u8; KEPT],
    s: &mut Stand,
) -> io::Result<usize>
    requires listable { Listable (mesh_of mesh.old) }
    requires within { at < length chunk.now }
    ensures { SameMesh mesh.old mesh.new }
{
    let Some(kind) = s.kind else {
        s.begun(chunk[at]);
        return Ok(at + 1);
    };
    let Some(next) = line.gather(chunk, at) else {
        return Ok(chunk.len());
    };
    take_line(rt, mesh, kind, line.text(), out, kept, s)?;
    line.clear();
    s.kind = None;
    Ok(next)
}

// A chunk of the list, which is gone through in as many turns as it has bytes, or fewer.
fn take_chunk(
    rt: &impl Print,
    mesh: &mut MeshMut,
    chunk: &[u8],
    line: &mut Held,
    out: &mut [u8; ANSWERS],
    kept: &mut [u8; KEPT],
    s: &mut Stand,
) -> io::Result<()>
    requires { Listable (mesh_of mesh.old) }
    ensures { SameMesh mesh.old mesh.new }
{
    let mut at = 0;
    for _ in 0..chunk.len() {
        if at >= chunk.len() {
            return Ok(());
        }
        at = take_bytes(rt, mesh, chunk, at, line, out, kept, s)?;
    }
    Ok(())
}

// The whole list. A proved loop has to end, so the turns are counted up to a number that no run reaches.
fn take_input(
    rt: &impl Print,
    reader: &mut impl Read,
    mesh: &mut MeshMut,
    out: &mut [u8; ANSWERS],
    kept: &mut [u8; KEPT],
) -> io::Result<Stand>
    requires sizes { ScriptSizes (mesh_of mesh.old) }
    requires listable { Listable (mesh_of mesh.old) }
{
    let mut s = Stand::new();
    let mut line = Held::new();
    for _ in 0..u64::MAX {
        let mut chunk = [0u8; CHUNK];
        let n = reader.read(&mut chunk)?;
        if n == 0 {
            return Ok(s);
        }
        take_chunk(rt, mesh, &chunk[..n], &mut line, out, kept, &mut s)?;
    }
    Ok(s)
}

fn main(rt: HostRuntime) -> io::Result<()> {
    let mut reader = rt.stdin();
    let mut tables = Tables::empty();
    let mut mesh = MeshMut {
        vertices: &mut tables.vertices,
        positions: &mut tables.positions,
        arcs: &mut tables.arcs,
        edges: &mut tables.edges,
        faces: &mut tables.faces,
        counters: &mut tables.counters,
    };
    let mut out = [0u8; ANSWERS];
    let mut kept = [0u8; KEPT];
    let s = take_input(&rt, &mut reader, &mut mesh, &mut out, &mut kept)?;
    println!(rt; "{} scripts, {} differ", s.cases, s.differing)
}
