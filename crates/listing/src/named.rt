// A link as the keys that name it: an arc by its two vertex keys, an edge or a face by its key, and none as absent.

ghost use Rattle.std.specs.Prelude.{◌≡◌};
ghost use Rattle.rules.specs.Lent.{mesh_in};
ghost use Rattle.rules.specs.Records.{arc_name, key_name};
ghost use Rattle.script.specs.Dumps.{keys_in};

use orders::keys;
use rules::MeshRef;
use script::Name;
use tables::rows;

// An arc, by the keys of its source and its destination.
#[tactic(auto, unfolding(rules::specs::Records::arc_name, script::specs::Dumps::keys_in))]
pub fn arc_name(mesh: MeshRef, x: u32) -> Name
    ensures { keys_in result ≡ arc_name (mesh_in mesh.entry) x }
{
    if x == 0 {
        return Name::Absent;
    }
    let source = rows::cell(mesh.arcs, x, 0);
    let dest = rows::cell(mesh.arcs, x, 1);
    Name::Arc(
        keys::key(mesh.vertices, source),
        keys::key(mesh.vertices, dest),
    )
}

// An edge or a face, by its key.
#[tactic(auto, unfolding(rules::specs::Records::key_name, script::specs::Dumps::keys_in))]
pub fn key_name<const N: usize>(t: &[[u32; N]], l: u32) -> Name
    ensures { keys_in result ≡ key_name t.now l }
{
    if l == 0 {
        return Name::Absent;
    }
    Name::Key(keys::key(t, l))
}
