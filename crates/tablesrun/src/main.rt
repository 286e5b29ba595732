// Runs the leaves of tables, walks, lists and edges, and the search of insert, on small tables, and prints what each found, one line for each.
// A link is a row plus one, and 0 is none. The file stdout beside src has the whole text.

#![tactic(auto)]

mod cells;
mod points;
mod records;
mod rings;
mod say;
mod scans;
mod sets;
mod vertexlists;

use std::io;

fn main(rt: HostRuntime) -> io::Result<()> {
    scans::run(&rt)?;
    points::run(&rt)?;
    rings::run(&rt)?;
    vertexlists::run(&rt)?;
    sets::run(&rt)?;
    records::run(&rt)
}
