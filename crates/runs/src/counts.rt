// The check that is made before the last line, the counts of vertices, edges and faces, and the last line that tells them.
// It carries document 01's "and last `end` with the counts of vertices, edges, faces" and document 02's "the script uses it before `end`".

ghost use Rattle.std.specs.Prelude.{◌≡◌, ◌≤◌, length, eqb};
ghost use Rattle.rules.specs.Table.{count, used};
ghost use Rattle.rules.specs.Step.{told};
ghost use Rattle.rules.specs.Call.{check_mesh};
ghost use Rattle.rules.specs.Script.{checked_end};
ghost use Rattle.rules.specs.Lent.{mesh_in};
ghost use Rattle.script.specs.Texts.{written, wrote};

use rules::MeshRef;
use script::texts;
use sound::queries;
use tables::{answers, rows};

// How many rows of a table are used, as the line tells them.
fn used<const N: usize>(t: &[[u32; N]]) -> u32
    requires { length t.now ≤ 8192 }
    ensures { result ≡ count used t.now }
{
    rows::count_used(t) as u32
}

// Whether the check answers 1.
#[tactic(auto, unfolding(rules::specs::Step::told))]
fn is_answered_one(m: MeshRef) -> bool
    ensures { result ≡ eqb (told (check_mesh (mesh_in m.entry))).number 1 }
{
    match queries::check_mesh(m) {
        Ok(()) => false,
        Err(refusal) => answers::number_of(refusal) == 1,
    }
}

// The check, and unless it answers 1 the last line, from the first of the lent bytes on.
pub fn put_counts(m: MeshRef, out: &mut [u8]) -> usize
    requires vertices_len_bound { (length m.vertices.now ≤ 8192) × (length m.edges.now ≤ 8192) }
    requires faces_len_bound { (length m.faces.now ≤ 8192) × (64 ≤ length out.old) }
    ensures result_after { written out.new result ≡ wrote out.old 0 (checked_end (mesh_in m.entry)) }
    ensures short { result ≤ 64 }
{
    if is_answered_one(m) {
        return 0;
    }
    texts::put_end(out, 0, used(m.vertices), used(m.edges), used(m.faces))
}
