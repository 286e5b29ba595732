// The queries as a program in C or Rust calls them: arity of a face, and the check. They change nothing.

ghost use Rattle.std.specs.Prelude.{◌≡◌};
ghost use Rattle.rules.specs.Step.{told};
ghost use Rattle.rules.specs.Call.{check_mesh, face_arity};
ghost use Rattle.rules.specs.Mesh.{mesh};

use rules::{ArcRow, EdgeRow, FaceRow, MeshRef, PositionRow, Reply, Told, VertexRow};
use tables::answers;

#[unsafe(no_mangle)]
pub extern "C" fn ul_check(
    vertices: &[VertexRow],
    positions: &[PositionRow],
    arcs: &[ArcRow],
    edges: &[EdgeRow],
    faces: &[FaceRow],
    counters: &[u32; 3],
) -> Reply
    ensures { result ≡ told (check_mesh (mesh vertices.now positions.now arcs.now edges.now faces.now counters.now)) }
{
    let mesh = MeshRef {
        vertices,
        positions,
        arcs,
        edges,
        faces,
        counters,
    };
    answers::told(sound::queries::check_mesh(mesh).map(|()| Told::Done))
}

#[unsafe(no_mangle)]
pub extern "C" fn ul_face_arity(
    vertices: &[VertexRow],
    positions: &[PositionRow],
    arcs: &[ArcRow],
    edges: &[EdgeRow],
    faces: &[FaceRow],
    counters: &[u32; 3],
    face: u32,
) -> Reply
    ensures { result ≡ told (face_arity (mesh vertices.now positions.now arcs.now edges.now faces.now counters.now) face) }
{
    let mesh = MeshRef {
        vertices,
        positions,
        arcs,
        edges,
        faces,
        counters,
    };
    answers::told(sound::queries::face_arity(mesh, face).map(Told::Arity))
}
