// Lists of at most 64 links or keys: read by place, made of a slice of keys, looked up; whether one holds a link, or holds one twice.
// Document 01's "`SmallVec` a 64-place list with a length", and the tests of rule 5 on keys and perimeters.

#![tactic(auto)]

ghost use Rattle.std.specs.Prelude.{◌≡◌, map, ◌<◌, ◌≤◌, ◌+◌, min, length, get_or, take, drop};
ghost use Rattle.rules.specs.Table.{has, distinct, after};
ghost use Rattle.rules.specs.Mesh.{links_of, list_of, find_key};
ghost use Rattle.rules.specs.Insert.{malformed};

use rules::{Links, RING, VertexRow};
use tables::rows;

// Says only that a list has at most 64.
pub fn known_few(list: Links)
    ensures { length (list_of list) ≤ 64 }
{}

// How many it has.
pub fn size(list: Links) -> usize
    ensures { result ≡ length (list_of list) }
{
    list.len.min(RING)
}

// The one at a place, or 0 past its end.
// Kept: document 01's list reads as 0 past its end, and `item` carries that (get_or .. 0).
pub fn item(list: Links, i: usize) -> u32
    ensures { result ≡ get_or (list_of list) i 0 }
{
    if i < list.len.min(RING) {
        list.at[i]
    } else {
        0
    }
}

// The place after i on a ring of n places.
// Kept: the library has no step round a ring but `%`, which asks that there are places at all.
pub fn place_after(n: usize, i: usize) -> usize
    requires { i < n }
    ensures { result ≡ after n i }
{
    if i + 1 == n { 0 } else { i + 1 }
}

// A list of the keys that a caller gives.
pub fn from_keys(keys: &[u32]) -> Links
    ensures { result ≡ links_of keys.now }
{
    let n = keys.len().min(RING);
    let mut at = [0u32; RING];
    at[..n].copy_from_slice(&keys[..n]);
    Links {
        at,
        len: keys.len(),
    }
}

// The vertices with these keys, 0 where one is unknown.
pub fn vertices_by_keys(vertices: &[VertexRow], keys: Links) -> Links
    ensures { result ≡ links_of (map (find_key vertices.now) (list_of keys)) }
{
    let len = keys.len.min(RING);
    let mut at = [0u32; RING];
    for (i, key) in keys.at[..len].iter().enumerate() {
        at[i] = rows::find_key(vertices, *key);
    }
    Links { at, len }
}

// Whether x stands in the first n places from place i on.
// Kept: a public function of places and how many count; `has_from` is the form over a list.
pub fn stands_from(at: &[u32; RING], n: usize, i: usize, x: u32) -> bool
    ensures { result ≡ has (drop i (take n at.now)) x }
{
    let end = n.min(RING);
    at[i.min(end)..end].contains(&x)
}

// Whether x stands in the list from place i on.
pub fn has_from(list: Links, i: usize, x: u32) -> bool
    ensures { result ≡ has (drop i (list_of list)) x }
{
    stands_from(&list.at, list.len, i, x)
}

// Whether the list has no element twice.
pub fn all_differ(list: Links) -> bool
    ensures { result ≡ distinct (list_of list) }
{
    let n = list.len.min(RING);
    for (i, x) in list.at[..n].iter().enumerate() {
        if stands_from(&list.at, n, i + 1, *x) {
            return false;
        }
    }
    true
}

// Fewer than three keys, or duplicates.
pub fn is_malformed(names: Links) -> bool
    ensures { result ≡ malformed (list_of names) }
{
    size(names) < 3 || !all_differ(names)
}
