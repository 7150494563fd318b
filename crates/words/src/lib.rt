// Parts of a slice, the number at its front, and a number written to it. Each function that reads is total: a byte past the end is 0, and a part past
// the end is cut off there.
#![tactic(auto)]

ghost use Rattle.std.specs.Prelude.{◌≡◌, ◌+◌, ◌≤◌, ◌<◌, length, take, drop};
ghost use Rattle.std.proofs.lemmas.List.Edits.{sets};
ghost use Rattle.words.specs.Words.{half, word, long, four_bytes};

use columns::byte_at;

// What stands from an index on.
pub fn from(s: &[u8], at: usize) -> &[u8]
    ensures { result.now ≡ drop at s.now }
{
    if at < s.len() {
        return &s[at..];
    }
    &s[0..0]
}

// The first bytes, at most that many.
pub fn front(s: &[u8], count: usize) -> &[u8]
    ensures { result.now ≡ take count s.now }
{
    if count < s.len() {
        return &s[0..count];
    }
    s
}

// The number of two bytes at the front.
pub fn half(s: &[u8]) -> u32
    ensures { (result ≡ half s.now) × (result < 65536) }
{
    u32::from(u16::from_le_bytes([byte_at(s, 0), byte_at(s, 1)]))
}

// The number of four bytes at the front.
pub fn word(s: &[u8]) -> u32
    ensures { result ≡ word s.now }
{
    u32::from_le_bytes([byte_at(s, 0), byte_at(s, 1), byte_at(s, 2), byte_at(s, 3)])
}

// The number of eight bytes at the front.
pub fn long(s: &[u8]) -> u64
    ensures { result ≡ long s.now }
{
    u64::from(word(s)) + u64::from(word(from(s, 4))) * 4294967296
}

// Writes a number to the four bytes from an index on.
pub fn write_word(bytes: &mut [u8], at: usize, n: u32)
    requires { at + 4 ≤ length bytes.old }
    ensures { bytes.new ≡ sets bytes.old at (four_bytes n) }
{
    bytes[at..at + 4].copy_from_slice(&n.to_le_bytes());
}
