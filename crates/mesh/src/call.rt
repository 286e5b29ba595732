// A call of any edit. Document 01: "Order: 1; 2 for what the caller gave; the Rust's checks before its first change, in its order; 2 for
// moved coordinates; 7; the Rust's refusals in mid-edit; 8", and "Working room ends all zero, accepted or not; answer 1 alone leaves it
// untouched."

ghost use Rattle.std.specs.Prelude.{◌≡◌, ◌≤◌, length, take, true, ℕ, IfSome, option_copied};
ghost use Rattle.rules.specs.declared.Edit.TheVariants.{FaceInsert};
ghost use Rattle.rules.specs.Lent.{mesh_in, mesh_of, room_of, tables_of, answered, SameMesh, SameRoom};
ghost use Rattle.rules.specs.Sound.{sound};
ghost use Rattle.rules.specs.Mesh.{room};
ghost use Rattle.rules.specs.Call.{work, worked, decided, called, outcome};
ghost use Rattle.order.specs.Transaction.{left, over, SameSize};
ghost use Rattle.mesh.specs.Near.{Fits, NearListed, Begun};

use nearby::rows;
use nearby::rows::LISTED;
use order::settle::Way;
use order::{decide, rooms, settle};
use pairs::MARKS;
use rules::{
    ArcRow, Call, EdgeRow, Edit, FaceRow, MeshMut, MeshRef, PositionRow, Refusal, RoomMut, Told,
    VertexRow,
};

// The arcs near an edit, listed: how many links, or none where there are too many or the rings near it do not tell. A face insert has at most 64
// keys.
fn list_near(list: &mut [u32; LISTED], mesh: MeshRef, edit: Edit, keys: &[u32]) -> Option<usize>
    requires { (mark : ℕ) → edit ≡ FaceInsert mark → length keys.now ≤ 64 }
    ensures { IfSome result (λ n. (n ≤ 2048) × NearListed (mesh_in mesh.entry) edit keys.now (take n list.new)) }
{
    if settle::way_of(edit) != Way::Near {
        return None;
    }
    let mut seen = [false; MARKS];
    nearby::vertices::mark_edit(&mut seen, mesh, edit, keys);
    rows::list_rows(list, mesh.arcs, mesh.edges, &seen)
}

// The edit on a copy of the mesh in room that is as long, where the arcs near it are listed or none are. It is judged there, and copied over the
// mesh only where it is accepted.
fn work_listed(
    mesh: &mut MeshMut,
    room: &mut RoomMut,
    near: Option<&[u32]>,
    edit: Edit,
    keys: &[u32],
) -> Result<Told, Refusal>
    requires begun { Begun (mesh_of mesh.old) edit keys.now }
    requires same_size { SameSize (tables_of (mesh_of mesh.old)) (room_of room.old) }
    requires near_listed { IfSome (option_copied near) (NearListed (mesh_of mesh.old) edit keys.now) }
    ensures left { left (answered result) (mesh_of mesh.new) ≡ over (mesh_of mesh.old) (worked (work (mesh_of mesh.old) edit keys.now)) }
    ensures same { SameMesh mesh.old mesh.new }
    ensures room { SameRoom room.old room.new }
{
    rows::known_rows(mesh.view().arcs);
    rooms::copy_in(room, mesh.view());
    let mut counters = *mesh.counters;
    let mut copy = MeshMut {
        vertices: &mut *room.vertices,
        positions: &mut *room.positions,
        arcs: &mut *room.arcs,
        edges: &mut *room.edges,
        faces: &mut *room.faces,
        counters: &mut counters,
    };
    let told = choice::work(&mut copy, edit, keys);
    rows::known_rows(copy.view().arcs);
    let answer = settle::judged(copy.view(), near, mesh.counters[2], told)?;
    rooms::copy_over(mesh, room.view(), near);
    *mesh.counters = counters;
    Ok(answer)
}

// The edit in room that is as long as the mesh, with the arcs near it listed first.
fn work_in_room(
    mesh: &mut MeshMut,
    room: &mut RoomMut,
    edit: Edit,
    keys: &[u32],
) -> Result<Told, Refusal>
    requires begun { Begun (mesh_of mesh.old) edit keys.now }
    requires same_size { SameSize (tables_of (mesh_of mesh.old)) (room_of room.old) }
    ensures left { left (answered result) (mesh_of mesh.new) ≡ over (mesh_of mesh.old) (worked (work (mesh_of mesh.old) edit keys.now)) }
    ensures same { SameMesh mesh.old mesh.new }
    ensures room { SameRoom room.old room.new }
{
    let mut list = [0u32; LISTED];
    let near = match list_near(&mut list, mesh.view(), edit, keys) {
        Some(n) => Some(&list[..n]),
        None => None,
    };
    work_listed(mesh, room, near, edit, keys)
}

// Says only that there are three.
fn known_three(counters: &[u32; 3])
    ensures { length counters.now ≡ 3 }
{}

// The edit on a sound mesh: what is decided before it, then the work. Where the work may still be refused, it is done in room.
fn perform(
    mesh: &mut MeshMut,
    room: &mut RoomMut,
    edit: Edit,
    keys: &[u32],
) -> Result<Told, Refusal>
    requires whole { sound (mesh_of mesh.old) ≡ true }
    requires same_size { SameSize (tables_of (mesh_of mesh.old)) (room_of room.old) }
    ensures left { left (answered result) (mesh_of mesh.new) ≡ over (mesh_of mesh.old) (decided (mesh_of mesh.old) edit keys.now) }
    ensures same { SameMesh mesh.old mesh.new }
    ensures room { SameRoom room.old room.new }
{
    known_three(mesh.view().counters);
    decide::decide(mesh.view(), edit, keys)?;
    if settle::way_of(edit) == Way::Keeps {
        return choice::work(mesh, edit, keys);
    }
    work_in_room(mesh, room, edit, keys)
}

// The edit on a sound mesh with room, table by table, that may be larger than it: in the parts of it that are as long as the mesh.
// Kept: the room by its tables: tried, and no rule covers a part of a field's slice that is lent while another field is used.
fn perform_in_parts(
    mesh: &mut MeshMut,
    v: &mut [VertexRow],
    p: &mut [PositionRow],
    a: &mut [ArcRow],
    e: &mut [EdgeRow],
    f: &mut [FaceRow],
    edit: Edit,
    keys: &[u32],
) -> Result<Told, Refusal>
    requires whole { sound (mesh_of mesh.old) ≡ true }
    requires fits { Fits (tables_of (mesh_of mesh.old)) (room v.old p.old a.old e.old f.old) }
    ensures left { left (answered result) (mesh_of mesh.new) ≡ over (mesh_of mesh.old) (decided (mesh_of mesh.old) edit keys.now) }
    ensures same { SameMesh mesh.old mesh.new }
{
    let nv = mesh.vertices.len();
    let np = mesh.positions.len();
    let na = mesh.arcs.len();
    let ne = mesh.edges.len();
    let nf = mesh.faces.len();
    let mut part = RoomMut {
        vertices: &mut v[..nv],
        positions: &mut p[..np],
        arcs: &mut a[..na],
        edges: &mut e[..ne],
        faces: &mut f[..nf],
    };
    perform(mesh, &mut part, edit, keys)
}

// The call: what it answers and leaves is `called`, for every lent table, counter, room and argument.
pub fn change(
    mesh: &mut MeshMut,
    room1: &mut RoomMut,
    room2: &mut RoomMut,
    call: Call,
    keys: &[u32],
) -> Result<Told, Refusal>
    ensures outcome { outcome (answered result) (mesh_of mesh.new) (room_of room1.new) (room_of room2.new)
        ≡ called (mesh_of mesh.old) (room_of room1.old) (room_of room2.old) call keys.now }
    ensures same { SameMesh mesh.old mesh.new }
    ensures room1 { SameRoom room1.old room1.new }
    ensures room2 { SameRoom room2.old room2.new }
{
    if !decide::is_ready(mesh.view(), room1.view(), room2.view()) {
        return Err(Refusal::Tables);
    }
    let told = perform_in_parts(
        mesh,
        room1.vertices,
        room1.positions,
        room1.arcs,
        room1.edges,
        room1.faces,
        call.edit,
        keys,
    );
    rooms::clear(room1, room2);
    told
}
