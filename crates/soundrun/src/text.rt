// The lines of a script: a name up to its colon, and after it stores of four numbers each. Every function reads any bytes, from any place.

// A number that was read, and the place after it.
#[derive(Clone, Copy)]
pub struct Read {
    pub value: u32,
    pub next: usize,
}

// What a store goes into: a table, the counters, or how many rows of each table there are.
#[derive(Clone, Copy)]
pub enum Target {
    Vertices,
    Arcs,
    Edges,
    Faces,
    Counters,
    Positions,
    Sizes,
}

// A store that was read: into what, where the script's number says, at which link and cell, what; and the place after it.
#[derive(Clone, Copy)]
pub struct Store {
    pub target: Option<Target>,
    pub link: u32,
    pub cell: usize,
    pub value: u32,
    pub next: usize,
}

// The place of a byte from a place on, or of the text's end.
fn place_of(text: &[u8], from: usize, byte: u8) -> usize {
    let rest = text.get(from..).unwrap_or(&[]);
    let found = rest.iter().position(|b| *b == byte);
    from.saturating_add(found.unwrap_or(rest.len()))
}

fn past(i: usize) -> usize {
    i.saturating_add(1)
}

// The place after the line.
pub fn after_line(text: &[u8], from: usize) -> usize {
    past(place_of(text, from, b'\n'))
}

// The place where the line's name starts: after a = and a blank, where the line has them.
pub fn name_start(text: &[u8], from: usize) -> usize {
    if has_at(text, from, b'=') {
        return past(past(from));
    }
    from
}

// The place of the colon after the line's name.
pub fn name_end(text: &[u8], from: usize) -> usize {
    place_of(text, from, b':')
}

// The place after that colon, where the stores start.
pub fn stores_start(text: &[u8], from: usize) -> usize {
    past(name_end(text, from))
}

// Whether a place has the byte.
pub fn has_at(text: &[u8], at: usize, byte: u8) -> bool {
    text.get(at) == Some(&byte)
}

// The digit at a place, if there is one.
fn digit_at(text: &[u8], at: usize) -> Option<u32> {
    let byte = *text.get(at)?;
    if byte.is_ascii_digit() {
        return Some(byte as u32 - 48);
    }
    None
}

// One digit more, unless the number leaves 32 bits.
fn with_digit(value: u32, digit: u32) -> u32 {
    value
        .checked_mul(10)
        .and_then(|tens| tens.checked_add(digit))
        .unwrap_or(value)
}

// The number after one blank, if there is one.
fn number(text: &[u8], from: usize) -> Option<Read> {
    if !has_at(text, from, b' ') {
        return None;
    }
    let start = past(from);
    let mut value = digit_at(text, start)?;
    for i in past(start)..text.len() {
        let Some(digit) = digit_at(text, i) else {
            return Some(Read { value, next: i });
        };
        value = with_digit(value, digit);
    }
    Some(Read {
        value,
        next: text.len(),
    })
}

fn target_of(code: u32) -> Option<Target> {
    match code {
        0 => Some(Target::Vertices),
        1 => Some(Target::Arcs),
        2 => Some(Target::Edges),
        3 => Some(Target::Faces),
        4 => Some(Target::Counters),
        5 => Some(Target::Positions),
        6 => Some(Target::Sizes),
        _ => None,
    }
}

// The store at a place, if there is one.
pub fn store_at(text: &[u8], from: usize) -> Option<Store> {
    let code = number(text, from)?;
    let link = number(text, code.next)?;
    let cell = number(text, link.next)?;
    let value = number(text, cell.next)?;
    Some(Store {
        target: target_of(code.value),
        link: link.value,
        cell: cell.value as usize,
        value: value.value,
        next: value.next,
    })
}
