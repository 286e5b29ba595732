// Numbers in lent bytes, low byte first. Other bytes stay.

ghost use mathlib.Core.Path.{◌≡◌};
ghost use Prim.Native.Nat.{◌+◌, ◌*◌, ◌≤◌};
ghost use lib.ListN.{length};
ghost use Rattle.file.specs.File.{cell_text};
ghost use Rattle.writes.specs.Writing.{put_text, words_text};

// Bytes from a place on.
fn put_bytes(out: &mut [u8], at: usize, bytes: &[u8])
    requires { at + length bytes.now ≤ length out.old }
    ensures { out.new ≡ put_text out.old at bytes.now }
{
    out[at..at + bytes.len()].copy_from_slice(bytes);
}

// A number of four bytes, "each u32 little-endian".
pub fn put_word(out: &mut [u8], at: usize, n: u32)
    requires { at + 4 ≤ length out.old }
    ensures { out.new ≡ put_text out.old at (cell_text 4 n) }
{
    put_bytes(out, at, &n.to_le_bytes());
}

// And of eight.
pub fn put_long(out: &mut [u8], at: usize, bits: u64)
    requires { at + 8 ≤ length out.old }
    ensures { out.new ≡ put_text out.old at (cell_text 8 bits) }
{
    put_bytes(out, at, &bits.to_le_bytes());
}

// Numbers of four bytes, one after the other.
pub fn put_words(out: &mut [u8], at: usize, words: &[u32])
    requires { at + 4 * length words.now ≤ length out.old }
    ensures { out.new ≡ put_text out.old at (words_text words.now) }
{
    for (i, n) in words.iter().enumerate() {
        put_word(out, at + 4 * i, *n);
    }
}
