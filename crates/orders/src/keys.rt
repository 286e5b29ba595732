// The key that names a vertex, an edge or a face, by its link: the first cell of its row less one. Through none it is 0.

ghost use mathlib.Core.Path.{◌≡◌};
ghost use Rattle.rules.specs.Mesh.{key_at};

use tables::rows;

#[tactic(auto, unfolding(rules::specs::Mesh::key_at))]
pub fn key<const N: usize>(t: &[[u32; N]], l: u32) -> u32
    ensures { result ≡ key_at t.now l }
{
    rows::cell(t, l, 0).saturating_sub(1)
}
