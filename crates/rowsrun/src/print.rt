// The text: a line, and the rows of a table that are in use, each with its number counted from 1.

use std::io;

pub fn after(rt: &impl Print, line: &[u8]) -> io::Result<()> {
    rt.write_all(line)?;
    rt.write_all(b"\n")
}

pub fn rows(rt: &impl Print, of: &str, table: &[[u32; 3]]) -> io::Result<()> {
    for (i, row) in table.iter().enumerate() {
        if row[0] != 0 {
            println!(rt; "  {of} row {}: {} {} {}", i + 1, row[0], row[1], row[2])?;
        }
    }
    Ok(())
}
