// The replay of a file's records.
#![tactic(auto)]

mod operations;

ghost use Rattle.std.specs.Prelude.{◌≡◌, ◌+◌};
ghost use Rattle.words.specs.Words.{word as Words·word};
ghost use Rattle.replay.specs.Operations.{is_right};
ghost use Rattle.replay.specs.Replay.{starts_whole, first_record, tally_of};

use operations::is_right;
use words::{from, front, word};

#[derive(Drop)]
pub struct Tally {
    pub records: usize,
    pub right: usize,
    pub wrong: usize,
    // Whether the file ends where a record does.
    pub whole: bool,
}

// The bytes that the record at the front takes, with the four of its length.
fn taken(s: &[u8]) -> usize
    ensures { result ≡ 4 + Words·word s.now }
{
    4 + (word(s) as usize)
}

fn starts_whole(s: &[u8]) -> bool
    ensures { result ≡ starts_whole s.now }
{
    taken(s) <= s.len()
}

fn first_is_right(s: &[u8]) -> bool
    ensures { result ≡ is_right (first_record s.now) }
{
    is_right(front(from(s, 4), word(s) as usize))
}

pub fn replay(s: &[u8]) -> Tally
    ensures { result ≡ tally_of s.now }
{
    let mut records = 0;
    let mut right = 0;
    let mut rest = s;
    // How long a record is, is read from the file.
    while starts_whole(rest) {
        right += usize::from(first_is_right(rest));
        records += 1;
        rest = from(rest, taken(rest));
    }
    Tally {
        records,
        right,
        wrong: records - right,
        whole: rest.is_empty(),
    }
}
