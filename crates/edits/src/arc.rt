// Arc bridge and arc extrude. Document 01's rule 8: "Unknown arcs 4; the four corners (a,b,c,d) stand together as one value; an existing arc
// among their pairs that has a face, 5; then insert with mark 0", and rule 10: "c is b moved, d is a moved, made in that order; then edge
// (c,d), then arc bridge of (a,b) and (c,d); the answer is (c,d)."

ghost use Rattle.std.specs.Prelude.{◌≡◌};
ghost use Rattle.rules.specs.Answer.{Key};
ghost use Rattle.rules.specs.Lent.{mesh_of, SameMesh, answer_by, answered};
ghost use Rattle.rules.specs.Step.{step};
ghost use Rattle.makers.specs.Makers.{searching, arc_bridge_work_by, arc_bridge_by, arc_extrude_work_by};
ghost use Rattle.checks.specs.Between.{one_of, other_of};
ghost use Rattle.edits.specs.Each.{joined_by};
ghost use Rattle.edits.specs.Known.{Known};

use crate::near::Around;
use crate::{near, pieces};
use checks::bridge;
use edges::free::Lowest;
use insert::face;
use rules::{MeshMut, Move, Refusal, Told};
use tables::rows;

// The mark of a face that bridges.
const NO_MARK: u32 = 0;

// The insert of the four corners of the arcs between four vertices, behind its checks: the face's key.
pub fn arc_bridge_work(mesh: &mut MeshMut, four: [u32; 4]) -> u32
    ensures told { step (mesh_of mesh.new) (Key result)
        ≡ arc_bridge_work_by searching (mesh_of mesh.old) (one_of mesh.old.arcs.now four) (other_of mesh.old.arcs.now four) }
    ensures same { SameMesh mesh.old mesh.new }
{
    let between = bridge::corners_between(mesh.view().arcs, four);
    let key = mesh.counters[2];
    face::insert_by(mesh, between.per, between.found, Lowest::default(), NO_MARK);
    key
}

// Arc bridge with its checks, as bridge and arc extrude use it in mid-edit: the face's key.
pub fn arc_bridge(mesh: &mut MeshMut, around: &Around, x: u32, y: u32) -> Result<u32, Refusal>
    requires { Known (mesh_of mesh.old) around.now }
    ensures told { step (mesh_of mesh.new) (answer_by Key result) ≡ arc_bridge_by searching (mesh_of mesh.old) x y }
    ensures same { SameMesh mesh.old mesh.new }
{
    let view = mesh.view();
    let per = bridge::corner_list(bridge::corners_of(view.arcs, x, y));
    lists::known_few(per);
    let found = around.near.perimeter_arcs(view.arcs, per);
    bridge::arc_bridge_checks_by(view.positions, view.arcs, per, found, x, y)?;
    let key = mesh.counters[2];
    face::insert_by(mesh, per, found, around.from, NO_MARK);
    Ok(key)
}

// The edge (c,d), then arc bridge of x = (a,b) and (c,d), by one list of the arcs near these four.
fn joined(mesh: &mut MeshMut, x: u32, a: u32, b: u32, c: u32, d: u32) -> Result<u32, Refusal>
    ensures told { step (mesh_of mesh.new) (answer_by Key result) ≡ joined_by searching (mesh_of mesh.old) x c d }
    ensures same { SameMesh mesh.old mesh.new }
{
    let around = near::near_edit(mesh.view(), near::two(a, b), near::two(c, d), 4);
    let y = near::edge_near(mesh, &around, c, d);
    arc_bridge(mesh, &around, x, y)
}

// Vertices that were there keep their places.
pub fn arc_extrude_work(mesh: &mut MeshMut, x: u32, by: Move) -> Result<Told, Refusal>
    ensures told { step (mesh_of mesh.new) (answered result) ≡ arc_extrude_work_by searching (mesh_of mesh.old) x by }
    ensures same { SameMesh mesh.old mesh.new }
{
    let arcs = mesh.view().arcs;
    let b = rows::cell(arcs, x, 1);
    let a = rows::cell(arcs, x, 0);
    let first = mesh.counters[0];
    let c = pieces::copied(mesh, 0, b, by);
    let second = mesh.counters[0];
    let d = pieces::copied(mesh, 0, a, by);
    joined(mesh, x, a, b, c, d)?;
    Ok(Told::Arc(first, second))
}
