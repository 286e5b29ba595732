// What is settled when the work is done: a refusal in mid-edit, 8 if the result is not sound, else what the work told. Document 01: "the Rust's refusals in
// mid-edit; 8".

ghost use Rattle.std.specs.Prelude.{◌≡◌, true, option_copied};
ghost use Rattle.rules.specs.Lent.{mesh_in, answered};
ghost use Rattle.rules.specs.Step.{step, accepted};
ghost use Rattle.rules.specs.Sound.{sound};
ghost use Rattle.rules.specs.Call.{worked};
ghost use Rattle.order.specs.Transaction.{way_of, RingsTell};

use nearby::rings;
use rules::{Edit, MeshRef, Refusal, Told};

// How it is known that what an edit leaves is sound: kept by proof, told by the rings near it, or told by the full check. A new edit may begin with the full
// check, which asks nothing of it. What is kept by proof needs no room, and nothing is to be settled.
#[derive(Clone, Copy, PartialEq)]
pub enum Way {
    Keeps,
    Near,
    Full,
}

pub fn way_of(edit: Edit) -> Way
    ensures { result ≡ way_of edit }
{
    match edit {
        Edit::VertexInsert(_) | Edit::FaceRemove(_) => Way::Keeps,
        Edit::FaceInsert(_)
        | Edit::FaceSplit(_, _, _)
        | Edit::FacePoke(_, _)
        | Edit::FaceBridge(_, _)
        | Edit::FaceExtrude(_, _)
        | Edit::ArcBridge(_, _, _, _)
        | Edit::ArcExtrude(_, _, _) => Way::Near,
    }
}

// Whether the tables are sound, after an edit from which on the arcs near it are listed and the face counter was `from`. The rings near it tell where there is
// a list.
fn sound_after(mesh: MeshRef, near: Option<&[u32]>, from: u32) -> bool
    requires { RingsTell (mesh_in mesh) (option_copied near) from }
    ensures { result ≡ sound (mesh_in mesh.entry) }
{
    match near {
        Some(list) => rings::rings_hold(mesh.arcs, mesh.faces, list, from),
        None => sound::queries::is_sound(mesh),
    }
}

// What the work told, or 8 where the tables that it leaves are not sound.
pub fn judged(
    mesh: MeshRef,
    near: Option<&[u32]>,
    from: u32,
    told: Result<Told, Refusal>,
) -> Result<Told, Refusal>
    requires { accepted (answered told) ≡ true → RingsTell (mesh_in mesh) (option_copied near) from }
    ensures { answered result ≡ (worked (step (mesh_in mesh.entry) (answered told))).answer }
{
    let done = told?;
    if sound_after(mesh, near, from) {
        return Ok(done);
    }
    Err(Refusal::WouldBreak)
}
