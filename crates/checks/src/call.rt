// An edit before its first change, by the keys that the caller gives: 2 for what was given, the Rust's checks in its order, 2 for moved coordinates,
// and the need against free rows and keys. Document 01's "Order: 1; 2 for what the caller gave; ..; 7" and its "Need".

ghost use Rattle.std.specs.Prelude.{◌≡◌, List, [], ◌∷◌, ℕ, ◌≤◌, ◌+◌, length, leb, Float};
ghost use Rattle.rules.specs.declared.Edit.TheVariants.{FaceInsert};
ghost use Rattle.rules.specs.Lent.{mesh_in, allowed};
ghost use Rattle.rules.specs.Table.{Table};
ghost use Rattle.rules.specs.Mesh.{mesh, list_of, find_key};
ghost use Rattle.rules.specs.Call as Call;
ghost use Rattle.checks.specs.Most.{needed, AtMost, most};

use crate::{bridge, extrude, free, insert, rings, split};
use rules::{ArcRow, Edit, FaceRow, Links, MeshRef, RING, Refusal, VertexRow};
use tables::{points, rows};

// ---- 2 for what the caller gave

// Whether the numbers that it gives are finite, and its keys at most 64.
pub fn given(edit: Edit, keys: &[u32]) -> bool
    ensures { result ≡ Call.given edit keys.now }
{
    match edit {
        Edit::VertexInsert(p) | Edit::FacePoke(_, p) => points::finite_position(p),
        Edit::FaceInsert(_) => keys.len() <= RING,
        Edit::FaceExtrude(_, mv) | Edit::ArcExtrude(_, _, mv) => points::finite_move(mv),
        _ => true,
    }
}

// ---- the checks

// The arc from the vertex with the key s to the one with the key d.
pub fn arc_by_keys(vertices: &[VertexRow], arcs: &[ArcRow], s: u32, d: u32) -> u32
    ensures { (ps : List (List Float)) (es fs : Table) (ks : List ℕ) →
        result ≡ Call.arc_by_keys (mesh vertices.now ps arcs.now es fs ks) s d }
{
    let a = rows::find_key(vertices, s);
    let b = rows::find_key(vertices, d);
    rows::find_arc(arcs, a, b)
}

// The vertices with four keys.
pub fn four_by_keys(vertices: &[VertexRow], a: u32, b: u32, c: u32, d: u32) -> [u32; 4]
    ensures { result ≡ find_key vertices.now a ∷ find_key vertices.now b ∷ find_key vertices.now c ∷ find_key
        vertices.now d ∷ [] }
{
    [
        rows::find_key(vertices, a),
        rows::find_key(vertices, b),
        rows::find_key(vertices, c),
        rows::find_key(vertices, d),
    ]
}

// The vertices with these keys, of which there are at most 64.
fn by_keys(vertices: &[VertexRow], keys: &[u32]) -> Links
    ensures { length keys.now ≤ 64 → (ps : List (List Float)) (ar es fs : Table) (ks : List ℕ) →
        list_of result ≡ Call.by_keys (mesh vertices.now ps ar es fs ks) keys.now }
{
    lists::vertices_by_keys(vertices, lists::from_keys(keys))
}

// The checks of each edit, where a face insert has at most 64 keys, as `given` tells.
pub fn checks_of(mesh: MeshRef, edit: Edit, keys: &[u32]) -> Result<(), Refusal>
    ensures { ((mark : ℕ) → edit ≡ FaceInsert mark → length keys.now ≤ 64) →
        allowed result ≡ Call.checks (mesh_in mesh.entry) edit keys.now }
{
    match edit {
        Edit::VertexInsert(_) => Ok(()),
        Edit::FaceInsert(_) => {
            let names = lists::from_keys(keys);
            let per = by_keys(mesh.vertices, keys);
            insert::insert_checks(mesh.positions, mesh.arcs, names, per)
        }
        Edit::FaceRemove(f) | Edit::FacePoke(f, _) | Edit::FaceExtrude(f, _) => {
            extrude::known(rows::find_key(mesh.faces, f))
        }
        Edit::FaceSplit(f, s, d) => {
            let face = rows::find_key(mesh.faces, f);
            let from = rows::find_key(mesh.vertices, s);
            let to = rows::find_key(mesh.vertices, d);
            split::split_checks(mesh.arcs, mesh.faces, face, from, to)
        }
        Edit::FaceBridge(f, g) => {
            let from = rows::find_key(mesh.faces, f);
            let to = rows::find_key(mesh.faces, g);
            bridge::bridge_checks(mesh.arcs, mesh.faces, from, to)
        }
        Edit::ArcBridge(a, b, c, d) => {
            let four = four_by_keys(mesh.vertices, a, b, c, d);
            bridge::arc_bridge_checks(mesh.positions, mesh.arcs, four)
        }
        Edit::ArcExtrude(s, d, _) => {
            let x = arc_by_keys(mesh.vertices, mesh.arcs, s, d);
            extrude::arc_extrude_checks(mesh.arcs, x)
        }
    }
}

// ---- 2 for moved coordinates

// Whether the coordinates that an edit moves are finite.
pub fn moves_finite(mesh: MeshRef, edit: Edit) -> bool
    ensures { result ≡ Call.moves_finite (mesh_in mesh.entry) edit }
{
    match edit {
        Edit::FaceExtrude(f, mv) => {
            let face = rows::find_key(mesh.faces, f);
            let vertices = rings::vertices_of(mesh.arcs, mesh.faces, face);
            extrude::moved_finite(mesh.positions, mv, vertices)
        }
        Edit::ArcExtrude(s, d, mv) => {
            let to = rows::find_key(mesh.vertices, d);
            let from = rows::find_key(mesh.vertices, s);
            extrude::one_finite(mesh.positions, mv, to)
                && extrude::one_finite(mesh.positions, mv, from)
        }
        _ => true,
    }
}

// ---- 7: the need against free rows and keys

// How many vertices, edges and faces an edit needs, and how many face keys.
#[derive(Clone, Copy)]
pub struct Need {
    pub vertices: usize,
    pub edges: usize,
    pub faces: usize,
    pub facekeys: usize,
}

impl Need {
    fn new(vertices: usize, edges: usize, faces: usize, facekeys: usize) -> Need
        ensures { needed result ≡ Call.needs vertices edges faces facekeys }
    {
        Need {
            vertices,
            edges,
            faces,
            facekeys,
        }
    }
}

// An insert: one edge for each pair without an arc, one face.
fn insert_need(arcs: &[ArcRow], per: Links) -> Need
    ensures { (vs : Table) (ps : List (List Float)) (es fs : Table) (ks : List ℕ) →
        needed result ≡ Call.insert_need (mesh vs ps arcs.now es fs ks) (list_of per) }
{
    Need::new(0, insert::pairs_without(arcs, per), 1, 1)
}

// What an edit needs at most, told without a search among the arcs: a face insert one edge for each key, a split one, an arc bridge four; any
// other edit what it needs.
pub fn most_of(arcs: &[ArcRow], faces: &[FaceRow], edit: Edit, keys: &[u32]) -> Need
    ensures { (vs : Table) (ps : List (List Float)) (es : Table) (ks : List ℕ) →
        (needed result ≡ most (mesh vs ps arcs.now es faces.now ks) edit keys.now)
        × AtMost (Call.need (mesh vs ps arcs.now es faces.now ks) edit keys.now) (needed result) }
{
    match edit {
        Edit::VertexInsert(_) => Need::new(1, 0, 0, 0),
        Edit::FaceInsert(_) => Need::new(0, keys.len(), 1, 1),
        Edit::FaceRemove(_) => Need::new(0, 0, 0, 0),
        Edit::FaceSplit(_, _, _) => Need::new(0, 1, 1, 2),
        Edit::FacePoke(f, _) => {
            let n = rings::arity_of(arcs, faces, rows::find_key(faces, f));
            Need::new(1, n, n.saturating_sub(1), n)
        }
        Edit::FaceBridge(f, _) => {
            let n = rings::arity_of(arcs, faces, rows::find_key(faces, f));
            Need::new(0, n, n.saturating_sub(2), n)
        }
        Edit::FaceExtrude(f, _) => {
            let n = rings::arity_of(arcs, faces, rows::find_key(faces, f));
            Need::new(n, 2 * n, n, n + 1)
        }
        Edit::ArcBridge(_, _, _, _) => Need::new(0, 4, 1, 1),
        Edit::ArcExtrude(_, _, _) => Need::new(2, 3, 1, 1),
    }
}

// What each edit needs, where a face insert has at most 64 keys.
pub fn need_of(mesh: MeshRef, edit: Edit, keys: &[u32]) -> Need
    ensures { ((mark : ℕ) → edit ≡ FaceInsert mark → length keys.now ≤ 64) →
        needed result ≡ Call.need (mesh_in mesh.entry) edit keys.now }
{
    match edit {
        Edit::FaceInsert(_) => insert_need(mesh.arcs, by_keys(mesh.vertices, keys)),
        Edit::FaceSplit(_, s, d) => {
            let x = arc_by_keys(mesh.vertices, mesh.arcs, s, d);
            Need::new(0, usize::from(x == 0), 1, 2)
        }
        Edit::ArcBridge(a, b, c, d) => {
            let four = four_by_keys(mesh.vertices, a, b, c, d);
            insert_need(mesh.arcs, bridge::corners_between(mesh.arcs, four).per)
        }
        _ => most_of(mesh.arcs, mesh.faces, edit, keys),
    }
}

// Free rows are not fewer than the need.
pub fn rows_for(mesh: MeshRef, need: Need) -> bool
    ensures { result ≡ Call.rows_for (mesh_in mesh.entry) (needed need) }
{
    free::enough(mesh.vertices, need.vertices)
        && free::enough(mesh.edges, need.edges)
        && free::enough(mesh.faces, need.faces)
}

// As many keys as there are: the last is 4,294,967,294.
const KEYS: usize = u32::MAX as usize;

// Whether so many keys are left from the next on.
fn keys_left(next: u32, many: usize) -> bool
    ensures { result ≡ leb (next + many) 4294967295 }
{
    many <= KEYS - next as usize
}

// No key above 4,294,967,294 is needed.
pub fn keys_for(counters: &[u32; 3], need: Need) -> bool
    ensures { (vs : Table) (ps : List (List Float)) (ar es fs : Table) →
        result ≡ Call.keys_for (mesh vs ps ar es fs counters.now) (needed need) }
{
    keys_left(counters[0], need.vertices)
        && keys_left(counters[1], need.edges)
        && keys_left(counters[2], need.facekeys)
}

// Both.
pub fn room_for(mesh: MeshRef, need: Need) -> bool
    ensures { result ≡ Call.room_for (mesh_in mesh.entry) (needed need) }
{
    rows_for(mesh, need) && keys_for(mesh.counters, need)
}
