// Tables filled from the lowest row, one row a record. Request L3: "reading fills rows from the lowest".

ghost use mathlib.Core.Path.{◌≡◌};
ghost use mathlib.Core.List.{[]};
ghost use Prim.Native.Nat.{ℕ, ◌≤◌, ◌<◌};
ghost use lib.ListN.{length, get_or, drop};
ghost use Rattle.std.specs.Prelude.{Option};
ghost use Rattle.rules.specs.Lent.{SameRoom, room_of, tables_of};
ghost use Rattle.file.specs.File.{contents_in, mesh_of, vertex_row, position_row, arc_row, edge_row, face_row};
ghost use Rattle.bodies.specs.Bodies.{records_in};
ghost use Rattle.fills.specs.Fills.{MadeBelow, over_first, records_over, as_mesh, RowsFor};
ghost use Rattle.rules.specs.Mesh.{room};

use crate::holding::StorableFile;
use crate::rows;
use bodies::kinds::Kind;
use rules::{ArcRow, EdgeRow, FaceRow, PositionRow, RoomMut, VertexRow};
use tables::sets;

// Rows over the first n of a table: each is made from its place and the row before it.
fn fill<R: Copy, F: Fn(usize, Option<R>) -> R>(table: &mut [R], n: usize, make: F)
    requires long { n ≤ length table.old }
    requires can { (i : ℕ) (before : Option R) → i < n → F.pre make i before }
    ensures made { MadeBelow (λ i row. (before : Option R) × F.post make i before row) table.new n }
    ensures rest { drop n table.new ≡ drop n table.old }
{
    let mut before = None;
    for i in 0..n {
        let row = make(i, before);
        table[i] = row;
        before = Some(row);
    }
}

// A vertex's leading arc is looked for near that of the vertex before.
fn fill_vertices(vertices: &mut [VertexRow], file: StorableFile)
    requires { length (records_in file.whole.file.text.now 0) ≤ length vertices.old }
    ensures { vertices.new ≡ over_first (vertex_row (contents_in file.entry.whole.file.text.now)) (records_in file.entry.whole.file.text.now 0) vertices.old }
{
    let n = file.whole.file.count(Kind::Vertices);
    fill(
        vertices,
        n,
        |i: usize, before: Option<VertexRow>| -> VertexRow
            requires { i < length (records_in file.whole.file.text.now 0) }
            ensures { result ≡ vertex_row (contents_in file.entry.whole.file.text.now) (get_or (records_in file.entry.whole.file.text.now 0) i []) }
        {
            let guess = match before {
                Some(row) => row[1],
                None => 0,
            };
            rows::vertex_row(file, i, guess as usize)
        },
    )
}

fn fill_positions(positions: &mut [PositionRow], file: StorableFile)
    requires { length (records_in file.whole.file.text.now 0) ≤ length positions.old }
    ensures { positions.new ≡ over_first position_row (records_in file.entry.whole.file.text.now 0) positions.old }
{
    let n = file.whole.file.count(Kind::Vertices);
    fill(
        positions,
        n,
        |i: usize, _before: Option<PositionRow>| -> PositionRow
            requires { i < length (records_in file.whole.file.text.now 0) }
            ensures { result ≡ position_row (get_or (records_in file.entry.whole.file.text.now 0) i []) }
        { rows::position_row(file, i) },
    )
}

fn fill_arcs(arcs: &mut [ArcRow], vertices: &[VertexRow], file: StorableFile)
    requires { length (records_in file.whole.file.text.now 1) ≤ length arcs.old }
    ensures { arcs.new ≡ over_first (arc_row (contents_in file.entry.whole.file.text.now)) (records_in file.entry.whole.file.text.now 1) arcs.old }
{
    let n = file.whole.file.count(Kind::Arcs);
    fill(
        arcs,
        n,
        |i: usize, _before: Option<ArcRow>| -> ArcRow
            requires { i < length (records_in file.whole.file.text.now 1) }
            ensures { result ≡ arc_row (contents_in file.entry.whole.file.text.now) (get_or (records_in file.entry.whole.file.text.now 1) i []) }
        { rows::arc_row(file, vertices, i) },
    )
}

fn fill_edges(edges: &mut [EdgeRow], vertices: &[VertexRow], file: StorableFile)
    requires { length (records_in file.whole.file.text.now 2) ≤ length edges.old }
    ensures { edges.new ≡ over_first (edge_row (contents_in file.entry.whole.file.text.now)) (records_in file.entry.whole.file.text.now 2) edges.old }
{
    let n = file.whole.file.count(Kind::Edges);
    fill(
        edges,
        n,
        |i: usize, _before: Option<EdgeRow>| -> EdgeRow
            requires { i < length (records_in file.whole.file.text.now 2) }
            ensures { result ≡ edge_row (contents_in file.entry.whole.file.text.now) (get_or (records_in file.entry.whole.file.text.now 2) i []) }
        { rows::edge_row(file, vertices, i) },
    )
}

fn fill_faces(faces: &mut [FaceRow], vertices: &[VertexRow], file: StorableFile)
    requires { length (records_in file.whole.file.text.now 3) ≤ length faces.old }
    ensures { faces.new ≡ over_first (face_row (contents_in file.entry.whole.file.text.now)) (records_in file.entry.whole.file.text.now 3) faces.old }
{
    let n = file.whole.file.count(Kind::Faces);
    fill(
        faces,
        n,
        |i: usize, _before: Option<FaceRow>| -> FaceRow
            requires { i < length (records_in file.whole.file.text.now 3) }
            ensures { result ≡ face_row (contents_in file.entry.whole.file.text.now) (get_or (records_in file.entry.whole.file.text.now 3) i []) }
        { rows::face_row(file, vertices, i) },
    )
}

// All of them. A vertex's row tells where the arcs of its vertex are.
// Kept: the vertices are read while another table is written, and a field of a room that is lent for writing cannot be lent for reading beside another field.
fn fill_tables(
    vertices: &mut [VertexRow],
    positions: &mut [PositionRow],
    arcs: &mut [ArcRow],
    edges: &mut [EdgeRow],
    faces: &mut [FaceRow],
    file: StorableFile,
)
    requires { RowsFor (contents_in file.whole.file.text.now) (room vertices.old positions.old arcs.old edges.old faces.old) }
    ensures { room vertices.new positions.new arcs.new edges.new faces.new
        ≡ records_over (contents_in file.entry.whole.file.text.now) (room vertices.old positions.old arcs.old edges.old faces.old) }
{
    fill_vertices(vertices, file);
    fill_positions(positions, file);
    fill_arcs(arcs, vertices, file);
    fill_edges(edges, vertices, file);
    fill_faces(faces, vertices, file);
}

// A whole room, as long as it is: the rows of all records, and further rows zero.
pub fn fill_room(room: &mut RoomMut, file: StorableFile)
    requires { RowsFor (contents_in file.whole.file.text.now) (room_of room.old) }
    ensures filled { room_of room.new ≡ tables_of (mesh_of (as_mesh (room_of room.old) []) (contents_in file.entry.whole.file.text.now)) }
    ensures same { SameRoom room.old room.new }
{
    sets::zero_set(room);
    fill_tables(
        room.vertices,
        room.positions,
        room.arcs,
        room.edges,
        room.faces,
        file,
    );
}
