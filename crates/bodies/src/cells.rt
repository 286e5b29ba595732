// The number in 4 and in 8 bytes of a text, the lowest byte first. Request L3: "each u32 little-endian", "coordinates as their 64 bits".

ghost use mathlib.Core.Path.{◌≡◌};
ghost use Prim.Native.Nat.{◌+◌, ◌≤◌, ◌<◌};
ghost use lib.ListN.{length, take, drop};
ghost use Rattle.file.specs.File.{cell_in};

// So many bytes of a text, from a place on.
fn bytes_at<const N: usize>(text: &[u8], at: usize) -> [u8; N]
    requires { at + N ≤ length text.now }
    ensures { result ≡ take N (drop at text.now) }
{
    let mut bytes = [0; N];
    bytes.copy_from_slice(&text[at..at + N]);
    bytes
}

// Kept: from_le_bytes is a method of each type and no trait of std has it, so one function over both would need a trait with two impls of these lines.
pub fn number4(text: &[u8], at: usize) -> u32
    requires { at + 4 ≤ length text.now }
    ensures { result ≡ cell_in (take 4 (drop at text.now)) }
{
    u32::from_le_bytes(bytes_at(text, at))
}

pub fn number8(text: &[u8], at: usize) -> u64
    requires { at + 8 ≤ length text.now }
    ensures { (result ≡ cell_in (take 8 (drop at text.now))) × (result < 18446744073709551616) }
{
    u64::from_le_bytes(bytes_at(text, at))
}
