// Coordinates, positions and moves: whether a number is finite or zero by its bits, a position in its row, and a position moved.
// It carries document 01's "its exponent field (bits 52 to 62) is not all ones", "A position is one record of three f64", and
// "Here a move is a choice of two": a Shift is one rounded sum for each coordinate, a Scale three rounded operations in a fixed order.

ghost use Rattle.std.specs.Prelude.{◌≡◌};
ghost use Rattle.std.specs.Float.{binary64};
ghost use Rattle.std.specs.Float.Ieee.{to_bits};
ghost use Rattle.std.specs.Float.Ieee.Scale as Scale;
ghost use Rattle.rules.specs.Table.{put_row};
ghost use Rattle.rules.specs.Point as Point;

use rules::{Move, Position, PositionRow};

// The position of nothing.
const ZERO: Position = Position {
    x: 0.0,
    y: 0.0,
    z: 0.0,
};

// ---- one number

// Whether x is finite. A NaN, which alone differs from itself, has no one pattern of bits.
pub fn finite(x: f64) -> bool
    ensures { (result ≡ Point.finite_number x) × (result ≡ Scale.finite x) }
{
    if x != x {
        return false;
    }
    let field = (f64::to_bits(x) >> 52) & 0x7ff;
    field != 0x7ff
}

// Whether x is the zero whose 64 bits are all 0, so not -0.
pub fn zero_bits(x: f64) -> bool
    ensures { result ≡ Point.zero_number x }
{
    if x != x {
        return false;
    }
    f64::to_bits(x) == 0
}

// Its 64 bits, and for a NaN, which no sound mesh has, one pattern.
pub fn bits_of(x: f64) -> u64
    ensures { result ≡ to_bits binary64 x }
{
    if x.is_nan() {
        return 0x7ff8000000000000;
    }
    x.to_bits()
}

// ---- positions and moves

// Whether all three coordinates are finite.
pub fn finite_position(p: Position) -> bool
    ensures { result ≡ Point.finite_position p }
{
    finite(p.x) && finite(p.y) && finite(p.z)
}

// Whether two positions are in one spot: all three coordinates equal as floats, so that -0 equals 0.
pub fn same_place(p: Position, q: Position) -> bool
    ensures { result ≡ Point.same_place p q }
{
    p.x == q.x && p.y == q.y && p.z == q.z
}

// Whether the numbers that a move gives are finite.
pub fn finite_move(m: Move) -> bool
    ensures { result ≡ Point.finite_move m }
{
    match m {
        Move::Shift(dx, dy, dz) => finite_position(Position {
            x: dx,
            y: dy,
            z: dz,
        }),
        Move::Scale { ox, oy, oz, factor } => {
            let centre = Position {
                x: ox,
                y: oy,
                z: oz,
            };
            finite_position(centre) && finite(factor)
        }
    }
}

// A position moved.
pub fn moved(p: Position, m: Move) -> Position
    ensures { result ≡ Point.moved p m }
{
    match m {
        Move::Shift(dx, dy, dz) => Position {
            x: p.x + dx,
            y: p.y + dy,
            z: p.z + dz,
        },
        Move::Scale { ox, oy, oz, factor } => Position {
            x: (p.x - ox) * factor + ox,
            y: (p.y - oy) * factor + oy,
            z: (p.z - oz) * factor + oz,
        },
    }
}

// ---- positions in their table

// The position in the row that a link names. Through none, or past the table, it is zero.
pub fn position_at(ps: &[PositionRow], v: u32) -> Position
    ensures { result ≡ Point.position_at ps.now v }
{
    let i = v as usize;
    if i == 0 || i > ps.len() {
        return ZERO;
    }
    let [x, y, z] = ps[i - 1];
    Position { x, y, z }
}

// The position into the row that a link names. Nothing is written through none, or past the table.
pub fn put_position(ps: &mut [PositionRow], v: u32, p: Position)
    ensures { ps.new ≡ put_row ps.old v (Point.row_of p) }
{
    if v == 0 {
        return;
    }
    let i = v as usize - 1;
    if i < ps.len() {
        ps[i] = [p.x, p.y, p.z];
    }
}
