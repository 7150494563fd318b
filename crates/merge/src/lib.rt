// Two tables in one.
#![tactic(auto)]

ghost use Rattle.std.specs.Prelude.{◌≡◌, length};
ghost use Rattle.refusals.specs.Accepted.{Table};
ghost use Rattle.unions.specs.Union.{rows_of, union_rows};
ghost use Rattle.merge.specs.Merge.{Writes, Merges};
ghost use Rattle.merge.specs.Parts.{check_given, check_union};

use blocks::PROFILE_BYTES_WITH_BULB;
use places::Pos;
use refusals::{Checked, Refused, check_table, refuse_unless};

// The length of the lent output: 1,024 rows.
const OUT_BYTES: usize = 32768;

const MOST_ROWS: usize = 1024;

// Row 0 for each of them.
const CLASH: Refused = Refused {
    number: Refused::CLASH,
    row: 0,
};

const CROWDED: Refused = Refused {
    number: Refused::CROWDED,
    row: 0,
};

// Refusals 2 to 5 and 10 of the first table and of the second, 7 of an output that has so many bytes, and 11, for which the second's rows are gone
// through only where nothing before it falls.
#[tactic(auto, unfolding(crate::specs::Parts::check_given))]
fn check_given(first: &[u8], second: &[u8], by: Pos, bytes: usize) -> Checked
    ensures { result ≡ check_given first.now second.now by bytes }
{
    check_table(PROFILE_BYTES_WITH_BULB, first)?;
    check_table(PROFILE_BYTES_WITH_BULB, second)?;
    refuse_unless(Refused::COLUMN, bytes == OUT_BYTES)?;
    refuse_unless(Refused::OFF_GROUND, moving::on_ground(second, by))
}

// Merges two tables, the second of which is moved already.
fn merge_moved(first: &[u8], second: &[u8], out: &mut [u8]) -> u32
    requires { Table first.now × Table second.now × (length out.old ≡ 32768) }
    ensures { Writes (check_union (rows_of first.now) (rows_of second.now)) (union_rows (rows_of first.now) (rows_of second.now)) out.old out.new result }
{
    let Some(n) = unions::count_rows(first, second) else {
        return CLASH.answer();
    };
    if MOST_ROWS < n {
        return CROWDED.answer();
    }
    unions::write_rows(first, second, out);
    n as u32
}

// Writes the rows of the first table and of the second, moved by the offset, to the front of the output, in order, each shared one once, and
// answers how many there are; or the refusal, with the output as it was.
pub fn merge(first: &[u8], second: &[u8], by: Pos, out: &mut [u8]) -> u32
    ensures { Merges first.now second.now by out.old out.new result }
{
    if let Err(refused) = check_given(first, second, by, out.len()) {
        return refused.answer();
    }
    let mut room = [0u8; OUT_BYTES];
    let moved = &mut room[..second.len()];
    moved.copy_from_slice(second);
    moving::move_rows(moved, by);
    merge_moved(first, moved, out)
}
