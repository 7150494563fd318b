// The parts of a record, and a copy of one. Each function is total: a byte past the end is 0, and a slice past the end is cut off there.
#![tactic(auto)]

ghost use Rattle.std.specs.Prelude.{◌≡◌, ℤ};
ghost use Rattle.records.specs.Record.{entry, pos_at, parts_from, after, slice_of, number, has_parts, well_formed, columns_agree, copied};

use columns::{byte_at, same};
use places::Pos;
use words::{from, front, half, word};
use world::row::pos_of;

// The bytes of a table of the most rows.
pub const MOST_BYTES: usize = 2048;

// Entry i of a list of numbers of two bytes.
pub fn entry(s: &[u8], i: usize) -> u32
    ensures { result ≡ entry s.now i }
{
    if s.len() / 2 < i {
        return 0;
    }
    half(from(s, i * 2))
}

// The position that stands at an index, laid out as in a row of a table.
pub fn pos_at(s: &[u8], at: usize) -> Pos
    ensures { result ≡ pos_at s.now at }
{
    pos_of(from(s, at), 0)
}

// Where a record goes on after its first slices.
fn parts_from(s: &[u8], slices: u8) -> usize
    ensures { result ≡ parts_from s.now slices }
{
    let mut at = 2;
    for _ in 0..slices {
        at = at + 2 + (half(from(s, at)) as usize);
    }
    at
}

// What stands after a record's first slices.
pub fn after(s: &[u8], slices: u8) -> &[u8]
    ensures { result.now ≡ after s.now slices }
{
    from(s, parts_from(s, slices))
}

// The bytes of slice k.
pub fn slice_of(s: &[u8], k: u8) -> &[u8]
    ensures { result.now ≡ slice_of s.now k }
{
    let rest = after(s, k);
    front(from(rest, 2), half(rest) as usize)
}

// The number of four bytes that stands at an index of what comes after a record's slices.
pub fn number(s: &[u8], slices: u8, at: usize) -> u32
    ensures { result ≡ number s.now slices at }
{
    word(from(after(s, slices), at))
}

// Whether a record has the zero, that many slices and then that many bytes.
pub fn has_parts(s: &[u8], slices: u8, rest: usize) -> bool
    ensures { result ≡ has_parts s.now slices rest }
{
    (byte_at(s, 1) == 0) & ((parts_from(s, slices) <= s.len()) & (after(s, slices).len() == rest))
}

// Whether a record has so many slices and bytes after them, and in slice 1 a table of at most the most rows.
pub fn well_formed(s: &[u8], slices: u8, rest: usize) -> bool
    ensures { result ≡ well_formed s.now slices rest }
{
    has_parts(s, slices, rest) & (slice_of(s, 1).len() <= MOST_BYTES)
}

// Whether three columns are slices i, j and k.
pub fn columns_agree(
    s: &[u8],
    i: u8,
    j: u8,
    k: u8,
    signal: &[u8],
    weak: &[u8],
    strong: &[u8],
) -> bool
    ensures { result ≡ columns_agree s.now i j k signal.now weak.now strong.now }
{
    same(signal, slice_of(s, i)) & (same(weak, slice_of(s, j)) & same(strong, slice_of(s, k)))
}

// The bytes of a slice in an array for a table of the most rows, for a call to change.
pub fn copied(s: &[u8]) -> [u8; MOST_BYTES]
    ensures { result ≡ copied s.now }
{
    let mut a = [0u8; MOST_BYTES];
    let n = s.len().min(MOST_BYTES);
    a[..n].copy_from_slice(&s[..n]);
    a
}
