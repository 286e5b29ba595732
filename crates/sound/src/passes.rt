// One pass over each table: what document 01 asks of a row of it, all at once. A phrase is a function of keys.rt, edges.rt, links.rt or
// blanks.rt, on one row. "Each arc's edge joins its ends" is a count: each edge names two arcs that hold it, and there are no others.
// A pass over a table with keys tells on the way whether they rise from row to row (keys.rt). That over the faces is in faces.rt.

ghost use Rattle.std.specs.Prelude.{◌≡◌, cond, List, ℕ, Float, ◌+◌, ◌*◌, ◌≤◌, length};
ghost use Rattle.rules.specs.Table.{Table, count, used};
ghost use Rattle.rules.specs.Mesh as Meshes;
ghost use Rattle.rules.specs.Lent.{mesh_in};
ghost use Rattle.proved.specs.Demand.{holds_some};
ghost use Rattle.sound.specs.Tests.{vertex_test, arc_test, edge_test};
ghost use Rattle.sound.specs.Parts.{vertices_sound, positions_sound, arcs_sound, PassOf, CountOf, EdgesPass};

use crate::keys::Rising;
use crate::{blanks, edges, holders, keys, links, places};
use rules::{ArcRow, EdgeRow, MeshRef, VertexRow};

// How many edges there are, and whether their keys were found to rise.
#[derive(Clone, Copy)]
pub struct Named {
    pub there: usize,
    pub keys: Rising,
}

// ---- one row

fn vertex_row(arcs: &[ArcRow], counter: u32, row: VertexRow, v: usize) -> bool
    ensures { result ≡ vertex_test arcs.now counter row v }
{
    if row[0] == 0 {
        return blanks::blank(&row);
    }
    keys::key_below(row[0], counter) && links::leads_row(arcs, row, v)
}

fn arc_row(arcs: &[ArcRow], row: ArcRow) -> bool
    ensures { result ≡ arc_test arcs.now row }
{
    blanks::blank(&row) && links::loose_row(arcs, row)
}

fn edge_row(vertices: &[VertexRow], arcs: &[ArcRow], counter: u32, row: EdgeRow, e: usize) -> bool
    ensures { result ≡ edge_test vertices.now arcs.now counter row e }
{
    blanks::blank(&row)
        && (keys::key_below(row[0], counter) && edges::edge_arcs(vertices, arcs, row, e))
}

// ---- every row

pub fn vertices_sound(mesh: MeshRef) -> Option<Rising>
    ensures { PassOf (vertices_sound (mesh_in mesh.entry)) mesh.entry.vertices.now result }
{
    let mut keys = Rising::start();
    for (i, row) in mesh.vertices.iter().enumerate() {
        if !vertex_row(mesh.arcs, mesh.counters[0], *row, i + 1) {
            return None;
        }
        keys = keys.after(row[0]);
    }
    Some(keys)
}

pub fn positions_sound(mesh: MeshRef) -> bool
    ensures { result ≡ positions_sound (mesh_in mesh.entry) }
{
    let from = places::skip_placed(mesh.vertices, mesh.positions);
    for i in from..mesh.positions.len() {
        if !blanks::position_row(mesh.vertices, i, mesh.positions[i]) {
            return false;
        }
    }
    true
}

// One more, if so.
// Kept: `n + usize::from(so)` is no shorter where it is used, and its contract names the bound.
fn plus(n: usize, so: bool) -> usize
    requires { n ≤ 16384 }
    ensures { result ≡ cond so (n + 1) n }
{
    if so { n + 1 } else { n }
}

// How many arcs hold a face, where every row passes and there are as many arcs as edges name, whatever edges these are. A row that holds a face passes: it is on a
// ring (faces.rt). Nearly all rows do, and a run of them is counted at once (holders.rt).
// Kept: a run of rows that hold a face is counted at once, so the step is as long as the run.
pub fn arcs_held(mesh: MeshRef, named: usize) -> Option<usize>
    requires { length mesh.arcs.now ≤ 16384 }
    ensures { (v : Table) (p : List (List Float)) (e f : Table) (k : List ℕ) → named ≡ 2 * count used e →
        CountOf (arcs_sound (Meshes.mesh v p mesh.entry.arcs.now e f k)) (count holds_some mesh.entry.arcs.now) result }
{
    let arcs = mesh.arcs;
    let mut held: usize = 0;
    let mut loose: usize = 0;
    let mut i = 0;
    while i < arcs.len() {
        if holders::holds_some(arcs[i]) {
            let end = holders::skip_held(arcs, i + 1);
            held += end - i;
            i = end;
        } else {
            if !arc_row(arcs, arcs[i]) {
                return None;
            }
            loose = plus(loose, arcs[i][0] != 0);
            i += 1;
        }
    }
    if held + loose != named {
        return None;
    }
    Some(held)
}

// The names of the edges are written on the way.
pub fn edges_named(names: &mut [u32], mesh: MeshRef) -> Option<Named>
    requires { (length mesh.edges.now ≤ 8192) × (length mesh.edges.now ≤ length names.old) }
    ensures { EdgesPass (mesh_in mesh.entry) names.new result }
{
    let mut there: usize = 0;
    let mut keys = Rising::start();
    for (i, row) in mesh.edges.iter().enumerate() {
        if !edge_row(mesh.vertices, mesh.arcs, mesh.counters[1], *row, i + 1) {
            return None;
        }
        names[i] = edges::edge_name(mesh.arcs, *row);
        there = plus(there, row[0] != 0);
        keys = keys.after(row[0]);
    }
    Some(Named { there, keys })
}
