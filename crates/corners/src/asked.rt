// The lines that a corner asks, each with the answer that document 01 gives.

#[derive(Clone, Copy)]
pub enum Way {
    Same,
    Up,
    Down,
}

// A line: a letter, a number, and then so many numbers, all the same, or each one more or one less than the one before. Its answer: `ok`
// with a number, or `no` with a number.
#[derive(Clone, Copy)]
pub struct Asked {
    pub letter: u8,
    pub first: u32,
    pub from: u32,
    pub count: u32,
    pub way: Way,
    pub answer: Result<u32, u32>,
}

// Document 01's corners that are not starred.
#[derive(Clone, Copy)]
pub enum Corner {
    LoneTriangle,
    LargeRing,
    LastRow,
}

// How many lines it asks.
pub fn lines_of(corner: Corner) -> u32 {
    match corner {
        Corner::LoneTriangle => 5,
        Corner::LargeRing | Corner::LastRow => 66,
    }
}

pub fn asked_at(corner: Corner, at: u32) -> Asked {
    match corner {
        Corner::LoneTriangle => lone_triangle(at),
        Corner::LargeRing => large_ring(at),
        Corner::LastRow => last_row(at),
    }
}

// `v K 0 0`, which gives the key K: no two stand in one spot.
fn vertex(key: u32) -> Asked {
    Asked {
        letter: b'v',
        first: key,
        from: 0,
        count: 2,
        way: Way::Same,
        answer: Ok(key),
    }
}

// `f 7` and so many keys from one on.
fn face(from: u32, count: u32, answer: Result<u32, u32>) -> Asked {
    Asked {
        letter: b'f',
        first: 7,
        from,
        count,
        way: Way::Up,
        answer,
    }
}

// `f 7` and so many keys from one down, which gives this key.
fn face_down(from: u32, count: u32, key: u32) -> Asked {
    Asked {
        letter: b'f',
        first: 7,
        from,
        count,
        way: Way::Down,
        answer: Ok(key),
    }
}

// `p F` and F, F + 1, F + 2: no two in one spot, nor at a vertex of those above.
fn poke(face: u32, answer: Result<u32, u32>) -> Asked {
    Asked {
        letter: b'p',
        first: face,
        from: face,
        count: 3,
        way: Way::Up,
        answer,
    }
}

// `x F 0 1 2`, which gives this key.
fn extrude(face: u32, key: u32) -> Asked {
    Asked {
        letter: b'x',
        first: face,
        from: 0,
        count: 3,
        way: Way::Up,
        answer: Ok(key),
    }
}

// "Lone triangle extruded: 6 vertices, 9 edges, 4 faces": five lines.
fn lone_triangle(at: u32) -> Asked {
    if at < 3 {
        return vertex(at);
    }
    if at == 3 {
        return face(0, 3, Ok(0));
    }
    extrude(0, 1)
}

// "A ring of 64 accepted, 65 keys 2": 66 lines.
fn large_ring(at: u32) -> Asked {
    if at < 64 {
        return vertex(at);
    }
    if at == 64 {
        return face(0, 64, Ok(0));
    }
    face(0, 65, Err(2))
}

// "The last free face row used; one fewer, 7": 66 lines. A ring of 59 is poked, and two of the panels that come of it: 63 faces. A third
// needs two rows and has one, which the panel behind them all, its keys from 58 down to 0, takes.
fn last_row(at: u32) -> Asked {
    if at < 59 {
        return vertex(at);
    }
    if at == 59 {
        return face(0, 59, Ok(0));
    }
    if at < 63 {
        return poke(at - 60, Ok(at - 1));
    }
    if at == 64 {
        return face_down(58, 59, 66);
    }
    poke(3, Err(7))
}
