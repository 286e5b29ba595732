// The arcs near an edit, listed: those that leave a vertex with a mark, and their opposites, which reach it. An edit changes no other arc that was there,
// and its new arcs are those of edges that were not there. So these rows alone are copied over when it is accepted. Document 01: "work in lent room,
// copied over only when accepted".

ghost use Rattle.std.specs.Prelude.{◌≡◌, Bool, List, ◌+◌, ◌≤◌, ◌<◌, length, take, IfSome, option_copied};
ghost use Rattle.rules.specs.Lent.{mesh_of, SameMesh};
ghost use Rattle.rules.specs.Mesh.{with_arcs};
ghost use Rattle.nearby.specs.Rows.{SixCells, Listed, ListedTo, CopiedRow, Copied, is_new, Toward, RightIfNew, NewCopied, DifferNear};

use pairs::{MARKS, marked};
use rules::{ArcRow, EdgeRow, MeshMut, RoomRef};
use tables::rows::{self, ROW_LIMIT};
use tables::sets;

// How many links are listed at most.
pub const LISTED: usize = 2048;

// Says only that every row has six cells.
pub fn known_rows(arcs: &[ArcRow])
    ensures { SixCells arcs.now }
{}

// ---- the list

// Kept: no heap and fixed memory, so the list is filled here with its number of links beside it; all others are given its links as a slice.
// The arc in row i and its opposite, listed behind n links, unless the row is unused: how many links there are then.
fn list_row(
    list: &mut [u32; LISTED],
    arcs: &[ArcRow],
    edges: &[EdgeRow],
    n: usize,
    i: usize,
) -> usize
    requires { (i < length arcs.now) × ((length arcs.now ≤ 16384) × (n + 2 ≤ 2048)) }
    ensures { (result ≤ n + 2) × ((seen : List Bool) → ListedTo arcs.now edges.now seen (take n list.old) i →
        ListedTo arcs.now edges.now seen (take result list.new) (i + 1)) }
{
    if arcs[i][0] == 0 {
        return n;
    }
    let x = i as u32 + 1;
    list[n] = x;
    list[n + 1] = rows::opposite(arcs, edges, x);
    n + 2
}

// Every arc that leaves a vertex with a mark, and its opposite: how many links are listed, or none where there are too many.
pub fn list_rows(
    list: &mut [u32; LISTED],
    arcs: &[ArcRow],
    edges: &[EdgeRow],
    seen: &[bool; MARKS],
) -> Option<usize>
    ensures { IfSome result (λ n. (n ≤ 2048) × Listed arcs.now edges.now seen.now (take n list.new)) }
{
    if arcs.len() > ROW_LIMIT {
        return None;
    }
    let mut n: usize = 0;
    let mut i = marked::skip(arcs, seen, 0);
    while i < arcs.len() {
        if n + 2 > LISTED {
            return None;
        }
        n = list_row(list, arcs, edges, n, i);
        i = marked::skip(arcs, seen, i + 1);
    }
    Some(n)
}

// ---- the rows

// The row of a link becomes that of the other table. A row that the table does not have stays out.
fn copy_row(to: &mut [ArcRow], from: &[ArcRow], x: u32)
    requires { length to.old ≡ length from.now }
    ensures { CopiedRow from.now to.old to.new x }
{
    let l = x as usize;
    if l != 0 && l <= to.len() {
        to[l - 1] = from[l - 1];
    }
}

// The rows listed become those of the other table.
fn copy_listed(to: &mut [ArcRow], from: &[ArcRow], list: &[u32])
    requires { length to.old ≡ length from.now }
    ensures { Copied list.now from.now to.old to.new }
{
    for x in list {
        copy_row(to, from, *x);
    }
}

// ---- new arcs

// Whether a row of the edges is used that was not.
fn is_new(was: EdgeRow, row: EdgeRow) -> bool
    ensures { result ≡ is_new was row }
{
    was[0] == 0 && row[0] != 0
}

// Both arcs of the edge in row i become those of the room if that edge was not there.
fn copy_arcs(mesh: &mut MeshMut, room: RoomRef, i: usize)
    requires { (i < length room.edges.now)
        × ((length room.edges.now ≡ length mesh.old.edges.now) × (length mesh.old.arcs.now ≡ length room.arcs.now)) }
    ensures copied { Toward room.entry.arcs.now mesh.old.arcs.now mesh.new.arcs.now
        × RightIfNew mesh.old.edges.now room.entry.edges.now room.entry.arcs.now mesh.new.arcs.now i }
    ensures arcs_alone { mesh_of mesh.new ≡ with_arcs (mesh_of mesh.old) mesh.new.arcs.now }
    ensures same { SameMesh mesh.old mesh.new }
{
    let row = room.edges[i];
    if is_new(mesh.edges[i], row) {
        copy_row(mesh.arcs, room.arcs, row[1]);
        copy_row(mesh.arcs, room.arcs, row[2]);
    }
}

// The arcs of every new edge do.
fn copy_new(mesh: &mut MeshMut, room: RoomRef)
    requires { (length room.edges.now ≡ length mesh.old.edges.now) × (length mesh.old.arcs.now ≡ length room.arcs.now) }
    ensures copied { NewCopied mesh.old.edges.now room.entry.edges.now room.entry.arcs.now mesh.old.arcs.now mesh.new.arcs.now }
    ensures arcs_alone { mesh_of mesh.new ≡ with_arcs (mesh_of mesh.old) mesh.new.arcs.now }
    ensures same { SameMesh mesh.old mesh.new }
{
    for i in 0..room.edges.len() {
        copy_arcs(mesh, room, i);
    }
}

// The arcs become those of the room, where they differ near the edit alone: the listed rows and those of new edges are copied, or all where there were
// too many to list.
pub fn copy_over(mesh: &mut MeshMut, room: RoomRef, near: Option<&[u32]>)
    requires sizes { (length room.edges.now ≡ length mesh.old.edges.now) × (length mesh.old.arcs.now ≡ length room.arcs.now) }
    requires differ_near { DifferNear room.arcs.now mesh.old.arcs.now (option_copied near) room.edges.now mesh.old.edges.now }
    ensures value { mesh_of mesh.new ≡ with_arcs (mesh_of mesh.old) room.entry.arcs.now }
    ensures same { SameMesh mesh.old mesh.new }
{
    match near {
        Some(list) => {
            copy_listed(mesh.arcs, room.arcs, list);
            copy_new(mesh, room);
        }
        None => sets::copy(mesh.arcs, room.arcs),
    }
}
