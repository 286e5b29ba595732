// What a record's cells hold: the keys of an arc's ends, an edge's or a face's key, 4,294,967,295 for none, and a coordinate's 64 bits.

ghost use mathlib.Core.Path.{◌≡◌};
ghost use Rattle.rules.specs.Lent.{mesh_in};
ghost use Rattle.rules.specs.Records.{arc_name, key_name};
ghost use Rattle.file.specs.File.{key_cell};

use orders::keys;
use rules::MeshRef;
use tables::rows;

// "None is written as 4,294,967,295".
const NONE: u32 = 4294967295;

// The keys of an arc's source and destination.
#[tactic(auto, unfolding(rules::specs::Records::arc_name, file::specs::File::key_cell))]
pub fn ends(mesh: MeshRef, x: u32) -> (u32, u32)
    ensures source { result.0 ≡ key_cell (arc_name (mesh_in mesh.entry) x) 0 }
    ensures destination { result.1 ≡ key_cell (arc_name (mesh_in mesh.entry) x) 1 }
{
    if x == 0 {
        return (NONE, NONE);
    }
    let source = rows::cell(mesh.arcs, x, 0);
    let dest = rows::cell(mesh.arcs, x, 1);
    (
        keys::key(mesh.vertices, source),
        keys::key(mesh.vertices, dest),
    )
}

// The key of an edge or a face.
#[tactic(auto, unfolding(rules::specs::Records::key_name, file::specs::File::key_cell))]
pub fn key_or_none<const N: usize>(t: &[[u32; N]], l: u32) -> u32
    ensures { result ≡ key_cell (key_name t.now l) 0 }
{
    if l == 0 {
        return NONE;
    }
    keys::key(t, l)
}
