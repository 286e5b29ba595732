// One line of output: what was asked, and what was found; or what follows.

use rules::{Ended, Links};
use std::fmt::Display;
use std::io;

pub fn title(rt: &impl Print, of: &str) -> io::Result<()> {
    println!(rt; "{of}")
}

pub fn number(rt: &impl Print, asked: &str, found: impl Display + Drop) -> io::Result<()> {
    println!(rt; "{asked}: {found}")
}

// A number that was found for a link or a key, which is printed before it.
pub fn number_of(rt: &impl Print, asked: &str, of: u32, found: u32) -> io::Result<()> {
    println!(rt; "{asked}{of}: {found}")
}

pub fn answer(rt: &impl Print, asked: &str, found: bool) -> io::Result<()> {
    let word = if found { "yes" } else { "no" };
    println!(rt; "{asked}: {word}")
}

// A number by its 64 bits, in hexadecimal: a NaN has no one pattern.
pub fn bits(rt: &impl Print, asked: &str, found: f64) -> io::Result<()> {
    if found.is_nan() {
        return println!(rt; "{asked}: not a number");
    }
    println!(rt; "{asked}: {:016x}", found.to_bits())
}

pub fn end(rt: &impl Print, asked: &str, found: Ended) -> io::Result<()> {
    match found {
        Ended::Closed => println!(rt; "{asked}: closed"),
        Ended::Open => println!(rt; "{asked}: open"),
        Ended::Cut => println!(rt; "{asked}: cut off"),
    }
}

// Each link of a list, after a space.
pub fn list(rt: &impl Print, asked: &str, found: Links) -> io::Result<()> {
    print!(rt; "{asked}:")?;
    for i in 0..lists::size(found) {
        item(rt, lists::item(found, i))?;
    }
    println!(rt; "")
}

fn item(rt: &impl Print, found: u32) -> io::Result<()> {
    print!(rt; " {found}")
}
