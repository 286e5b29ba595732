// Numbers by their bits, and positions moved, printed as the 64 bits of each coordinate: (2, 3, 0.5) shifted by (1, -3, 0.25) is
// (3, 0, 0.75), and scaled by 2 about (1, 1, 1) it is (3, 5, 0).

use crate::say;
use rules::{Move, Position};
use std::io;
use tables::points;

pub fn run(rt: &impl Print) -> io::Result<()> {
    numbers(rt, 1.0, 0.0, 1.0e308)?;
    moves(
        rt,
        Position {
            x: 2.0,
            y: 3.0,
            z: 0.5,
        },
    )
}

// Ten times a number near the top is infinity, and infinity less infinity is no number.
fn numbers(rt: &impl Print, one: f64, zero: f64, top: f64) -> io::Result<()> {
    let infinity = top * 10.0;
    say::title(rt, "1, 0, -0, 1e308, infinity, and infinity less infinity")?;
    told(rt, one)?;
    told(rt, zero)?;
    told(rt, -zero)?;
    told(rt, top)?;
    told(rt, infinity)?;
    told(rt, infinity - infinity)
}

fn told(rt: &impl Print, x: f64) -> io::Result<()> {
    say::bits(rt, "bits", x)?;
    say::answer(rt, "finite", points::finite(x))?;
    say::answer(rt, "zero by its bits", points::zero_bits(x))
}

fn moves(rt: &impl Print, p: Position) -> io::Result<()> {
    position(rt, "given", p)?;
    position(
        rt,
        "shifted",
        points::moved(p, Move::Shift(1.0, -3.0, 0.25)),
    )?;
    position(
        rt,
        "scaled",
        points::moved(
            p,
            Move::Scale {
                ox: 1.0,
                oy: 1.0,
                oz: 1.0,
                factor: 2.0,
            },
        ),
    )
}

fn position(rt: &impl Print, asked: &str, p: Position) -> io::Result<()> {
    print!(rt; "{asked}")?;
    say::bits(rt, " x", p.x)?;
    print!(rt; "{asked}")?;
    say::bits(rt, " y", p.y)?;
    print!(rt; "{asked}")?;
    say::bits(rt, " z", p.z)
}
