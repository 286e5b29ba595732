// Texts held against each other, kept, and printed.

use std::io;

// The place after the line and its newline, where they stand in the text from a place on and before its end.
pub fn after_line(text: &[u8], from: usize, end: usize, line: &[u8]) -> Option<usize> {
    let rest = text.get(from..end)?;
    if !rest.starts_with(line) || rest.get(line.len()) != Some(&b'\n') {
        return None;
    }
    Some(from.saturating_add(line.len()).saturating_add(1))
}

// The line and a newline behind what is kept; the place after them. What there is no room for is left out.
pub fn keep(kept: &mut [u8], from: usize, line: &[u8]) -> usize {
    let at = put_part(kept, from, line);
    put_part(kept, at, b"\n")
}

// As much of a text as there is room for behind a place.
fn put_part(kept: &mut [u8], from: usize, part: &[u8]) -> usize {
    let room = kept.len().saturating_sub(from);
    let n = part.len().min(room);
    let end = from.saturating_add(n);
    if end <= kept.len() {
        kept[from..end].copy_from_slice(&part[..n]);
    }
    end
}

// The text from a place to its end.
pub fn print_part(rt: &impl Print, text: &[u8], from: usize, end: usize) -> io::Result<()> {
    match text.get(from..end) {
        Some(part) => rt.write_all(part),
        None => Ok(()),
    }
}
