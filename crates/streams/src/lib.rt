// A stream of tables: what stands at the front of the bytes that are left of it.
#![tactic(auto)]

ghost use Rattle.std.specs.Prelude.{◌≡◌, ◌≤◌};
ghost use Rattle.words.specs.Words.{word as Words·word};
ghost use Rattle.streams.specs.Stream.{open_front, full_ending, front_of, bytes_to_read};

use words::word;

// The most tables that are read, and the most rows of each.
pub const MOST_TABLES: u64 = 1000000;

pub const MOST_ROWS: usize = 1024;

// The bytes of a row count.
pub const COUNT_BYTES: usize = 4;

// How the reading of a stream ends.
#[derive(Clone, Copy, PartialEq, Eq)]
pub enum Ending {
    Whole,
    Cut,
    Count,
}

// The rows that the table at the front is said to have.
pub fn row_count(s: &[u8]) -> usize
    ensures { result ≡ Words·word s.now }
{
    word(s) as usize
}

// How many bytes are to be read after a row count: those of its table, and none where there are too many rows.
pub fn bytes_to_read(count: &[u8]) -> usize
    ensures value { result ≡ bytes_to_read count.now }
    ensures few { result ≤ 32768 }
{
    let rows = row_count(count);
    if MOST_ROWS < rows {
        return 0;
    }
    rows * 32
}

// How the reading ends where no table more may be read.
fn full_ending(s: &[u8]) -> Ending
    ensures { result ≡ full_ending s.now }
{
    if s.is_empty() {
        return Ending::Whole;
    }
    Ending::Count
}

// The same where a table may be read.
fn open_front(s: &[u8]) -> Option<Ending>
    ensures { result ≡ open_front s.now }
{
    if s.is_empty() {
        return Some(Ending::Whole);
    }
    if s.len() < COUNT_BYTES {
        return Some(Ending::Cut);
    }
    let rows = row_count(s);
    if MOST_ROWS < rows {
        return Some(Ending::Count);
    }
    if s.len() < COUNT_BYTES + rows * 32 {
        return Some(Ending::Cut);
    }
    None
}

// How the reading ends at the front where so many tables more may be read: not at all where a table stands there whole.
pub fn front_of(left: u64, s: &[u8]) -> Option<Ending>
    ensures { result ≡ front_of left s.now }
{
    if left == 0 {
        return Some(full_ending(s));
    }
    open_front(s)
}
