// A face insert with its checks, as the other edits use it in mid-edit. Document 01's rule 5. The perimeter's arcs are found once, for both, in the
// list of arcs near the edit.

ghost use Rattle.std.specs.Prelude.{◌≡◌};
ghost use Rattle.rules.specs.Answer.{Key};
ghost use Rattle.rules.specs.Mesh.{list_of};
ghost use Rattle.rules.specs.Lent.{mesh_of, SameMesh, answer_by};
ghost use Rattle.rules.specs.Step.{step};
ghost use Rattle.makers.specs.Makers.{searching, insert_face_by};
ghost use Rattle.edits.specs.Known.{Known};

use crate::near::Around;
use insert::face;
use rules::{Links, MeshMut, Refusal};

// The face's key.
pub fn insert_face(
    mesh: &mut MeshMut,
    around: &Around,
    per: Links,
    mark: u32,
) -> Result<u32, Refusal>
    requires { Known (mesh_of mesh.old) around.now }
    ensures told { step (mesh_of mesh.new) (answer_by Key result) ≡ insert_face_by searching (mesh_of mesh.old) (list_of per) mark }
    ensures same { SameMesh mesh.old mesh.new }
{
    lists::known_few(per);
    let view = mesh.view();
    let found = around.near.perimeter_arcs(view.arcs, per);
    checks::insert::insert_checks_by(view.positions, view.arcs, found, per, per)?;
    let key = mesh.counters[2];
    face::insert_by(mesh, per, found, around.from, mark);
    Ok(key)
}
