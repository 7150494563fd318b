// A row of a table replaced by another at the same position, and the feeder list beside the table updated.
#![tactic(auto)]

ghost use Rattle.std.specs.Prelude.{◌≡◌, ◌*◌, ◌<◌, length, ℤ, pos, ◌+ℤ◌};
ghost use Rattle.std.specs.Int.Signed.{le_z};
ghost use Rattle.columns.specs.Column.{concat_rows};
ghost use Rattle.world.specs.Rows.{rows};
ghost use Rattle.refusals.specs.Accepted.{Table};
ghost use Rattle.feeding.specs.Replaced.{at_most_two_apart, is_near, is_renewed, updated_list};
ghost use Rattle.feeding.specs.Around.{updated_in};
ghost use Rattle.replace.specs.Replace.{stands_at_row, check_new, check_replace, Replaces};

use blocks::kind;
use circuit::Network;
use feeders::{is_list_length, write_row};
use places::Pos;
use prepare::prepare;
use refusals::scan::{first_bad, first_overdriven};
use refusals::{Checked, Refused, check_input, refuse_at, refuse_row_unless, refuse_unless};
use subtables::put_row;
use world::row;

// Whether a coordinate is at most two more than another.
fn at_most_two_more(a: i32, b: i32) -> bool
    ensures { result ≡ le_z a (b +ℤ pos 2) }
{
    (a as i64) <= (b as i64) + 2
}

fn at_most_two_apart(a: i32, b: i32) -> bool
    ensures { result ≡ at_most_two_apart a b }
{
    at_most_two_more(a, b) & at_most_two_more(b, a)
}

// Whether two positions are at most two cells apart on every axis.
fn is_near(p: Pos, q: Pos) -> bool
    ensures { result ≡ is_near p q }
{
    at_most_two_apart(p.x, q.x) & at_most_two_apart(p.y, q.y) & at_most_two_apart(p.z, q.z)
}

// Whether the entries of row i are written afresh where row n was replaced.
fn is_renewed(table: &[u8], n: usize, i: usize) -> bool
    ensures { result ≡ is_renewed table.now n i }
{
    if i == n {
        return true;
    }
    if row::kind_of(table, i) == kind::REDSTONE_WIRE {
        return is_near(row::pos_of(table, n), row::pos_of(table, i));
    }
    false
}

// Writes the entries of row n afresh, and those of dust at most two cells away, by the columns of the table after row n was replaced.
fn update_rows(table: &[u8], network: Network, n: usize, list: &mut [u16])
    requires { (length network.class.now ≡ rows table.now) × (length list.old ≡ rows table.now * 12) }
    ensures { list.new ≡ concat_rows (rows table.now) (updated_in table.now network.entry.near.now network.entry.class.now n list.old) }
{
    for i in 0..row::rows(table) {
        if is_renewed(table, n, i) {
            write_row(network, i, list);
        }
    }
}

// The same, of the table after row n was replaced.
fn update_list(profile: &[u8], table: &[u8], n: usize, list: &mut [u16])
    requires { Table table.now × (length list.old ≡ rows table.now * 12) }
    ensures { list.new ≡ updated_list profile.now table.now n list.old }
{
    let count = row::rows(table);
    let mut near = [0u16; 7168];
    let mut class = [0u32; 1024];
    let near = &mut near[..7 * count];
    let class = &mut class[..count];
    prepare(profile, table, near, class);
    update_rows(table, Network { near, class }, n, list);
}

// Whether the new row stands where the row of this number does.
fn stands_at_row(table: &[u8], n: usize, new: &[u8]) -> bool
    ensures { result ≡ stands_at_row table.now n new.now }
{
    (n < row::rows(table)) & row::pos_of(table, n).same(row::pos_of(new, 0))
}

// Refusals 4, 5 and 10 of the new row, where a profile has bytes for this many kinds.
#[tactic(auto, unfolding(crate::specs::Replace::check_new))]
fn check_new(kinds: usize, table: &[u8], n: u16, new: &[u8]) -> Checked
    ensures { result ≡ check_new kinds table.now n new.now }
{
    refuse_row_unless(Refused::BAD_ROW, n, new.len() == row::WIDTH)?;
    refuse_at(Refused::BAD_ROW, first_bad(kinds, new, 1), n as usize)?;
    refuse_row_unless(Refused::MISPLACED, n, stands_at_row(table, n as usize, new))?;
    refuse_at(Refused::OVERDRIVEN, first_overdriven(new, 1), n as usize)
}

// Refusals 1 to 5 and 10 of the table, 4, 5 and 10 of the new row, and 7 for a list of this many entries.
#[tactic(auto, unfolding(crate::specs::Replace::check_replace))]
fn check_replace(profile: &[u8], table: &[u8], n: u16, new: &[u8], count: usize) -> Checked
    ensures { result ≡ check_replace profile.now table.now n new.now count }
{
    check_input(profile, table)?;
    check_new(profile.len(), table, n, new)?;
    refuse_unless(Refused::COLUMN, is_list_length(table, count))
}

// Writes the new row over row n, updates the list and answers the number of rows; or the refusal.
pub fn replace(profile: &[u8], table: &mut [u8], n: u16, new: &[u8], list: &mut [u16]) -> u32
    ensures { Replaces profile.now table.old table.new n new.now list.old list.new result }
{
    if let Err(refused) = check_replace(profile, table, n, new, list.len()) {
        return refused.answer();
    }
    put_row(new, 0, table, n as usize);
    update_list(profile, table, n as usize, list);
    row::rows(table) as u32
}
