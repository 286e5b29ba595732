// Keys. It carries document 01's "keys in a table differ and lie below that kind's counter".
// A key's name is the first cell of its row: the key plus one, and 0 in an unused row. Keys that rise from row to row differ, which the
// passes over the tables tell; where they do not rise, names are copied and compared. The list of names is the caller's: what it has does
// not matter.

ghost use Rattle.std.specs.Prelude.{◌≡◌, true, ◌&&◌, ◌||◌, ◌≤◌, List, ℕ, Float, length, take, eqb, ltb};
ghost use Rattle.rules.specs.Table.{Table, distinct, or_else};
ghost use Rattle.rules.specs.Mesh as Meshes;
ghost use Rattle.rules.specs.Sound.{within_limits, keys_of, keys_differ};
ghost use Rattle.sound.specs.Tests.{key_test};
ghost use Rattle.sound.specs.Names.{firsts, keys_rise};

use names::ROWS;
use rules::MeshRef;

// Whether the keys of each table were found to rise.
// Kept: three tables with keys, a test each; an array of three would be named by numbers.
#[derive(Clone, Copy)]
pub struct Ordered {
    pub vertices: bool,
    pub edges: bool,
    pub faces: bool,
}

// Whether the keys of the rows gone through rise, and the last of them, plus one, or 0.
// Kept: the last key goes on where keys no longer rise: the contract of `after` names both, whatever the other is.
#[derive(Clone, Copy)]
pub struct Rising {
    pub so: bool,
    pub last: u32,
}

impl Rising {
    // Before the first row.
    pub fn start() -> Rising
        ensures { result ≡ record { so = true; last = 0 } }
    {
        Rising { so: true, last: 0 }
    }

    // A row further, by its first cell. An unused row has no key, and breaks nothing.
    pub fn after(self, first: u32) -> Rising
        ensures { result ≡ record { so = self.so && (eqb first 0 || ltb self.last first); last = or_else first self.last } }
    {
        Rising {
            so: self.so && names::follows(self.last, first),
            last: names::or_last(first, self.last),
        }
    }
}

// ---- below the counter

// Whether the key in a first cell lies below the counter. An unused row has none.
pub fn key_below(first: u32, counter: u32) -> bool
    ensures { result ≡ key_test counter first }
{
    first == 0 || first - 1 < counter
}

// ---- differ

// The names of a table's rows, as many as the list has places.
fn key_names<const N: usize>(names: &mut [u32], t: &[[u32; N]])
    requires { 1 ≤ N }
    ensures { length t.now ≤ length names.old → take (length t.now) names.new ≡ firsts t.now }
{
    let n = names.len().min(t.len());
    for i in 0..n {
        names[i] = t[i][0];
    }
}

fn differ<const N: usize>(names: &mut [u32; ROWS], t: &[[u32; N]], rising: bool) -> bool
    requires { (1 ≤ N) × (rising ≡ true → keys_rise t.now ≡ true) }
    ensures { length t.now ≤ 8192 → result ≡ distinct (keys_of t.now) }
{
    if rising {
        return true;
    }
    key_names(names, t);
    names::names_differ(names, t.len())
}

// Keys in a table differ, in tables within the limits, whatever stands beside these three. A table whose keys were found to rise is not gone over again.
pub fn keys_differ(names: &mut [u32; ROWS], mesh: MeshRef, ordered: Ordered) -> bool
    requires { (ordered.vertices ≡ true → keys_rise mesh.vertices.now ≡ true)
        × ((ordered.edges ≡ true → keys_rise mesh.edges.now ≡ true) × (ordered.faces ≡ true → keys_rise mesh.faces.now ≡ true)) }
    ensures { (p : List (List Float)) (a : Table) (k : List ℕ) →
        within_limits (Meshes.mesh mesh.entry.vertices.now p a mesh.entry.edges.now mesh.entry.faces.now k) ≡ true →
        result ≡ keys_differ (Meshes.mesh mesh.entry.vertices.now p a mesh.entry.edges.now mesh.entry.faces.now k) }
{
    differ(names, mesh.vertices, ordered.vertices)
        && (differ(names, mesh.edges, ordered.edges) && differ(names, mesh.faces, ordered.faces))
}
