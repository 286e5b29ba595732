// Meshes that are sound, finished or not, and damages that break one clause of Sound each: reads a script (crates/soundrun/damages.py
// writes it), and prints for each line its name and the number of check_mesh's answer. A line that starts with = is a mesh, any other a
// damage to the mesh above it.

#![tactic(auto)]

mod text; // text.rt: the lines of the script
mod mesh; // mesh.rt: the tables that a line stores into

ghost use Rattle.std.specs.Prelude.{◌≤◌, IfOk, length};

use rules::MeshMut;
use std::io;
use std::io::Read;

const MOST_LINES: usize = 1000;

// The most bytes of a script.
const ROOM: usize = 65536;

// The line of the mesh: this one where it starts with =, else the one before.
fn mesh_line(script: &[u8], at: usize, before: usize) -> usize {
    if text::has_at(script, at, b'=') {
        at
    } else {
        before
    }
}

// The name of a line without its = and blank, and the answer.
fn print_line(rt: &impl Print, script: &[u8], at: usize, number: u32) -> io::Result<()> {
    let start = text::name_start(script, at);
    let end = text::name_end(script, at);
    rt.write_all(script.get(start..end).unwrap_or(&[]))?;
    println!(rt; ": {number}")
}

fn run(rt: &impl Print, script: &[u8], mesh: &mut MeshMut) -> io::Result<()> {
    let mut base: usize = 0;
    let mut at: usize = 0;
    for _ in 0..MOST_LINES {
        if at >= script.len() {
            return Ok(());
        }
        base = mesh_line(script, at, base);
        let number = mesh::answer_to(script, base, at, mesh);
        print_line(rt, script, at, number)?;
        at = text::after_line(script, at);
    }
    Ok(())
}

// Reads until the room is full or the input ends; how many bytes were read.
fn read_full(reader: &mut impl Read, space: &mut [u8]) -> io::Result<usize>
    ensures { IfOk result (λ n. n ≤ length space.new) }
{
    let mut done: usize = 0;
    while done < space.len() {
        let n = reader.read(&mut space[done..])?;
        if n == 0 {
            break;
        }
        done += n;
    }
    Ok(done)
}

// The script from an input, into the room that is lent, and the tables that it is run on.
fn run_input(rt: &impl Print, reader: &mut impl Read, space: &mut [u8]) -> io::Result<()> {
    let n = read_full(reader, space)?;
    let mut vertices = [[0u32; 2]; 4097];
    let mut positions = [[0.0; 3]; 4097];
    let mut arcs = [[0u32; 6]; 16386];
    let mut edges = [[0u32; 3]; 8193];
    let mut faces = [[0u32; 3]; 4097];
    let mut counters = [0u32; 3];
    let mut mesh = MeshMut {
        vertices: &mut vertices,
        positions: &mut positions,
        arcs: &mut arcs,
        edges: &mut edges,
        faces: &mut faces,
        counters: &mut counters,
    };
    run(rt, &space[..n], &mut mesh)
}

fn main(rt: HostRuntime) -> io::Result<()> {
    let mut reader = rt.stdin();
    let mut space = [0u8; ROOM];
    run_input(&rt, &mut reader, &mut space)
}
