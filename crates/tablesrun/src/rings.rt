// A face's ring with how it ended, its vertices, places on it, and the shorter way round; and lists of keys.

use crate::say;
use rules::{ArcRow, Links, VertexRow};
use std::io;
use tables::links;
use walks::rings;

pub fn run(rt: &impl Print) -> io::Result<()> {
    let mut arcs: [ArcRow; 3] = [[1, 2, 2, 3, 1, 1], [2, 3, 3, 1, 1, 2], [3, 1, 1, 2, 1, 3]];
    let row: ArcRow = [1, 2, 0, 0, 0, 1];
    let mut chain: [ArcRow; 70] = [row; 70];
    small(rt, &mut arcs)?;
    long(rt, &mut chain)?;
    say::number(
        rt,
        "way from 1 to 6 on a ring of 8",
        rings::ring_distance(8, 1, 6),
    )?;
    say::number(
        rt,
        "way from 6 to 3 on a ring of 8",
        rings::ring_distance(8, 6, 3),
    )?;
    given(rt)
}

// A triangle's ring; the same without its last link; and that from none.
fn small(rt: &impl Print, arcs: &mut [ArcRow]) -> io::Result<()> {
    walk(rt, arcs, 1)?;
    let found = rings::ring(arcs, 1);
    let ring = found.links;
    around(rt, rings::ring_vertices(arcs, ring))?;
    links::connect(arcs, 3, 0);
    walk(rt, arcs, 1)?;
    walk(rt, arcs, 0)
}

fn walk(rt: &impl Print, arcs: &[ArcRow], first: u32) -> io::Result<()> {
    let found = rings::ring(arcs, first);
    let arcs_found = found.links;
    let ended = found.ended;
    say::number(rt, "ring from arc", first)?;
    say::list(rt, "its arcs", arcs_found)?;
    say::end(rt, "its end", ended)
}

fn around(rt: &impl Print, vertices: Links) -> io::Result<()> {
    say::list(rt, "its vertices", vertices)?;
    say::number(rt, "place of vertex 3", place(vertices, 3))?;
    say::number(rt, "place of vertex 9", place(vertices, 9))
}

// A place as it is shown: from 1 on, and 0 for none.
fn place(vertices: Links, x: u32) -> usize {
    rings::place_in(vertices, x).map_or(0, |i| i.saturating_add(1))
}

// A chain of 70 arcs: 70, 65 and 64 to its end, then closed at 64.
fn long(rt: &impl Print, chain: &mut [ArcRow]) -> io::Result<()> {
    tie(chain);
    measure(rt, chain, 1)?;
    measure(rt, chain, 6)?;
    measure(rt, chain, 7)?;
    links::connect(chain, 70, 7);
    measure(rt, chain, 7)
}

fn tie(chain: &mut [ArcRow]) {
    for x in 1..70 {
        links::connect(chain, x, x + 1);
    }
}

fn measure(rt: &impl Print, chain: &[ArcRow], first: u32) -> io::Result<()> {
    let found = rings::ring(chain, first);
    let arcs = found.links;
    let ended = found.ended;
    say::number(rt, "long ring from arc", first)?;
    say::number(rt, "its length", lists::size(arcs))?;
    say::end(rt, "its end", ended)
}

fn given(rt: &impl Print) -> io::Result<()> {
    let vertices: [VertexRow; 3] = [[1, 0], [3, 0], [2, 0]];
    let keys: [u32; 4] = [2, 0, 1, 7];
    let twice: [u32; 4] = [2, 0, 1, 2];
    let few: [u32; 2] = [2, 0];
    by_keys(rt, &vertices, &keys)?;
    tests(rt, "keys 2 0 1 7", &keys)?;
    tests(rt, "keys 2 0 1 2", &twice)?;
    tests(rt, "keys 2 0", &few)
}

fn by_keys(rt: &impl Print, vertices: &[VertexRow], keys: &[u32]) -> io::Result<()> {
    let names = lists::from_keys(keys);
    say::list(rt, "keys", names)?;
    say::number(rt, "key at place 3", lists::item(names, 3))?;
    say::number(rt, "key at place 4, past the end", lists::item(names, 4))?;
    say::list(
        rt,
        "their vertices",
        lists::vertices_by_keys(vertices, names),
    )
}

fn tests(rt: &impl Print, asked: &str, keys: &[u32]) -> io::Result<()> {
    let names = lists::from_keys(keys);
    print!(rt; "{asked}")?;
    say::answer(rt, ", all differ", lists::all_differ(names))?;
    print!(rt; "{asked}")?;
    say::answer(rt, ", malformed", lists::is_malformed(names))
}
