// The tables that a line of the script stores into, and the answer of check_mesh to them.

use crate::text;
use crate::text::{Store, Target};
use rules::{MeshMut, MeshRef, PositionRow, RoomMut};
use sound::queries;
use tables::{answers, rows, sets};

const MOST_STORES: usize = 4000;

// ---- one store

// A coordinate by its code: NaN, the infinities, -0, the least number above 0, or the number itself.
fn coordinate(code: u32) -> f64 {
    match code {
        1001 => 0.0 / 0.0,
        1002 => 1.0 / 0.0,
        1003 => -1.0 / 0.0,
        1004 => -0.0,
        1005 => 5e-324,
        n => n as f64,
    }
}

// A cell past the third is the third.
fn put_coordinate(positions: &mut [PositionRow], link: u32, cell: usize, code: u32) {
    let v = rows::wide(link);
    if v >= 1 && v <= positions.len() {
        positions[v - 1][cell.min(2)] = coordinate(code);
    }
}

// A counter, or a size.
fn put_number<const N: usize>(numbers: &mut [u32; N], link: u32, value: u32) {
    let n = rows::wide(link);
    if n >= 1 && n <= N {
        numbers[n - 1] = value;
    }
}

fn store(mesh: &mut MeshMut, sizes: &mut [u32; 5], s: Store) {
    match s.target {
        Some(Target::Vertices) => rows::put(mesh.vertices, s.link, s.cell, s.value),
        Some(Target::Arcs) => rows::put(mesh.arcs, s.link, s.cell, s.value),
        Some(Target::Edges) => rows::put(mesh.edges, s.link, s.cell, s.value),
        Some(Target::Faces) => rows::put(mesh.faces, s.link, s.cell, s.value),
        Some(Target::Counters) => put_number(mesh.counters, s.link, s.value),
        Some(Target::Positions) => put_coordinate(mesh.positions, s.link, s.cell, s.value),
        Some(Target::Sizes) => put_number(sizes, s.link, s.value),
        None => {}
    }
}

// ---- a line

// Every store of the line at a place.
fn apply(script: &[u8], from: usize, mesh: &mut MeshMut, sizes: &mut [u32; 5]) {
    let mut at = text::stores_start(script, from);
    for _ in 0..MOST_STORES {
        let Some(s) = text::store_at(script, at) else {
            return;
        };
        store(mesh, sizes, s);
        at = s.next;
    }
}

// As many rows as a size says, or all.
fn first<T>(rows: &[T], size: u32) -> &[T] {
    let n = rows::wide(size).min(rows.len());
    &rows[..n]
}

// The number of check_mesh's answer to as many rows of each table as the sizes say.
fn checked(mesh: &MeshMut, sizes: &[u32; 5]) -> u32 {
    let lent = MeshRef {
        vertices: first(mesh.vertices, sizes[0]),
        positions: first(mesh.positions, sizes[1]),
        arcs: first(mesh.arcs, sizes[2]),
        edges: first(mesh.edges, sizes[3]),
        faces: first(mesh.faces, sizes[4]),
        counters: mesh.counters,
    };
    match queries::check_mesh(lent) {
        Ok(()) => 0,
        Err(refusal) => answers::number_of(refusal),
    }
}

// The answer to the mesh at one line with the damage at another.
pub fn answer_to(script: &[u8], base: usize, damage: usize, mesh: &mut MeshMut) -> u32 {
    let mut sizes = [0u32; 5];
    let mut room = RoomMut {
        vertices: mesh.vertices,
        positions: mesh.positions,
        arcs: mesh.arcs,
        edges: mesh.edges,
        faces: mesh.faces,
    };
    sets::zero_set(&mut room);
    *mesh.counters = [0; 3];
    apply(script, base, mesh, &mut sizes);
    apply(script, damage, mesh, &mut sizes);
    checked(mesh, &sizes)
}
