// Numbers of 16 bits in lent bytes, lowest byte first; bytes copied between two buffers, and moved within one.
#![tactic(auto)]

ghost use Rattle.std.specs.Prelude.{◌≡◌, ◌+◌, ◌<◌, ◌≤◌, length};
ghost use Rattle.words.specs.Words.{word_at, put_word, Copied};

// The number at byte i.
#[tactic(auto, unfolding(crate::specs::Words::word_at))]
pub fn word(b: &[u8], i: usize) -> u16
    requires { i + 2 ≤ length b.now }
    ensures { (result ≡ word_at b.now i) × (result < 65536) }
{
    u16::from_le_bytes([b[i], b[i + 1]])
}

// Stores x at byte i.
#[tactic(auto, unfolding(crate::specs::Words::put_word))]
pub fn put_word(b: &mut [u8], i: usize, x: u16)
    requires { i + 2 ≤ length b.old }
    ensures { b.new ≡ put_word b.old i x }
{
    let [low, high] = x.to_le_bytes();
    b[i] = low;
    b[i + 1] = high;
}

// Copies n bytes of src, from `from` on, into dst, from `to` on.
pub fn copy(src: &[u8], from: usize, dst: &mut [u8], to: usize, n: usize)
    requires { (from + n ≤ length src.now) × (to + n ≤ length dst.old) }
    ensures { Copied src.now from dst.old to n dst.new }
{
    dst[to..to + n].copy_from_slice(&src[from..from + n]);
}

// Moves n bytes of a buffer, whichever way, also where the two places overlap.
pub fn shift(b: &mut [u8], from: usize, to: usize, n: usize)
    requires { (from + n ≤ length b.old) × (to + n ≤ length b.old) }
    ensures { Copied b.old from b.old to n b.new }
{
    b.copy_within(from..from + n, to);
}
