// One line of a script run on a lent mesh, with working room of its own: what the programs corners and replay do for each line that they hold
// against its answer.

#![tactic(auto)]

ghost use Rattle.std.specs.Prelude.{◌≤◌, length};
ghost use Rattle.rules.specs.Lent.{SameMesh};

use rules::{MeshMut, RoomMut};
use runs::{Tables, run};

// The line's answer stands at the start of the lent bytes.
pub fn ask(mesh: &mut MeshMut, line: &[u8], out: &mut [u8]) -> usize
    requires { 64 ≤ length out.old }
    ensures same { SameMesh mesh.old mesh.new }
    ensures short { result ≤ 64 }
{
    let mut one = Tables::empty();
    let mut two = Tables::empty();
    let mut room1 = RoomMut {
        vertices: &mut one.vertices,
        positions: &mut one.positions,
        arcs: &mut one.arcs,
        edges: &mut one.edges,
        faces: &mut one.faces,
    };
    let mut room2 = RoomMut {
        vertices: &mut two.vertices,
        positions: &mut two.positions,
        arcs: &mut two.arcs,
        edges: &mut two.edges,
        faces: &mut two.faces,
    };
    run::run_line(mesh, &mut room1, &mut room2, line, out, 0)
}
