// A set of five tables: one copied over another, zeroed, and measured against the limits and against another set.
// It carries document 01's "work in lent room, copied over only when accepted", "Working room ends all zero", the limits of "Tables are
// lent", and "it is too small if one of them has fewer rows than the mesh table of its kind".

ghost use Rattle.std.specs.Prelude.{◌≡◌, ◌∷◌, [], length, replicate};
ghost use Rattle.rules.specs.Sound.{within_limits};
ghost use Rattle.rules.specs.Call.{room_enough, zeroed};
ghost use Rattle.rules.specs.Lent.{SameRoom, mesh_in, room_in, room_of};
ghost use Rattle.rules.specs.Point.{zero_float};
ghost use Rattle.tables.specs.Sets.{over, set_over, tables_in};

use crate::zeros;
use rules::{MeshRef, PositionRow, RoomMut, RoomRef};

const VERTEX_LIMIT: usize = 4096;

const EDGE_LIMIT: usize = 8192;

const FACE_LIMIT: usize = 4096;

// ---- one table

// The first rows become those of the other table, as many as both have.
// Kept: a row at a time: `copy_from_slice` is compiled to memmove, a name that the archive for C would need from outside.
pub fn copy<T: Copy>(to: &mut [T], from: &[T])
    ensures { to.new ≡ over from.now to.old }
{
    let n = to.len().min(from.len());
    for i in 0..n {
        to[i] = from[i];
    }
}

// Every row becomes zero.
pub fn zero<const N: usize>(to: &mut [[u32; N]])
    ensures { to.new ≡ replicate (length to.old) (replicate N 0) }
{
    // Kept: tried, the proof didn't close: `for row in &mut to[i..]` is not covered at any width, and `to[i..].fill([0; N])` asks for a bound.
    for i in zeros::skip(to)..to.len() {
        to[i].fill(0);
    }
}

pub fn zero_positions(to: &mut [PositionRow])
    ensures { to.new ≡ replicate (length to.old) (zero_float ∷ zero_float ∷ zero_float ∷ []) }
{
    to.fill([0.0; 3]);
}

// ---- a set

// Each table of a room becomes that of the mesh, as many rows as both have.
pub fn copy_set(room: &mut RoomMut, mesh: MeshRef)
    ensures same { SameRoom room.old room.new }
    ensures copied { room_of room.new ≡ set_over (tables_in mesh.entry) (room_of room.old) }
{
    copy(room.vertices, mesh.vertices);
    copy(room.positions, mesh.positions);
    copy(room.arcs, mesh.arcs);
    copy(room.edges, mesh.edges);
    copy(room.faces, mesh.faces);
}

// Every row of every table becomes zero.
pub fn zero_set(room: &mut RoomMut)
    ensures same { SameRoom room.old room.new }
    ensures zeroed { room_of room.new ≡ zeroed (room_of room.old) }
{
    zero(room.vertices);
    zero_positions(room.positions);
    zero(room.arcs);
    zero(room.edges);
    zero(room.faces);
}

// Whether the tables are within the limits.
pub fn within_limits(mesh: MeshRef) -> bool
    ensures { result ≡ within_limits (mesh_in mesh.entry) }
{
    mesh.vertices.len() <= VERTEX_LIMIT
        && mesh.positions.len() == mesh.vertices.len()
        && mesh.edges.len() <= EDGE_LIMIT
        && mesh.arcs.len() == 2 * mesh.edges.len()
        && mesh.faces.len() <= FACE_LIMIT
}

// Whether a room has as many rows as the mesh in each table, or more.
pub fn room_enough(mesh: MeshRef, room: RoomRef) -> bool
    ensures { result ≡ room_enough (mesh_in mesh.entry) (room_in room.entry) }
{
    mesh.vertices.len() <= room.vertices.len()
        && mesh.positions.len() <= room.positions.len()
        && mesh.arcs.len() <= room.arcs.len()
        && mesh.edges.len() <= room.edges.len()
        && mesh.faces.len() <= room.faces.len()
}
