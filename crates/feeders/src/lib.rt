// The feeder list of a table: for each row twelve entries, the numbers of the rows of dust that transmits into it, rising, then 65,535. The twelve
// positions around a dust are looked at in the table's order, so that the numbers found are in rising order.
#![tactic(auto)]

mod around;

ghost use Rattle.std.specs.Prelude.{◌≡◌, ◌*◌, ◌<◌, length};
ghost use borrow.Rule.Slice.PartMut.{put_mid};
ghost use Rattle.columns.specs.Column.{concat_rows, at_front};
ghost use Rattle.world.specs.Rows.{rows as rows_of};
ghost use Rattle.refusals.specs.Accepted.{Table};
ghost use Rattle.feeding.specs.Feeders.{feeder_list, is_list_length};
ghost use Rattle.feeding.specs.Around.{rows_among, feeder_in, entries_in};
ghost use Rattle.feeders.specs.Feeds.{check_feeders, Feeds};

use crate::around::feeder_at;
use circuit::Network;
use circuit::sinks::NO_ROW;
use classes::is_dust_in;
use columns::fill;
use prepare::prepare;
use refusals::{Checked, Refused, check_input, refuse_unless};
use world::row::rows;

// How many entries a row has.
const ENTRIES: usize = 12;

// Writes the feeders of a row to the front of its entries.
fn list_feeders(network: Network, row: usize, entries: &mut [u16])
    requires entries_len { length entries.old ≡ 12 }
    ensures { entries.new ≡ at_front (rows_among (feeder_in network.entry.near.now network.entry.class.now row) 12) entries.old }
{
    let mut count = 0;
    for k in 0..ENTRIES {
        let feeder = feeder_at(network, row, k);
        if feeder != NO_ROW {
            entries[count] = feeder;
            count += 1;
        }
    }
}

// Writes the entries of a row. Nothing but dust has feeders.
fn write_entries(network: Network, row: usize, entries: &mut [u16])
    requires entries_len { length entries.old ≡ 12 }
    ensures { entries.new ≡ entries_in network.entry.near.now network.entry.class.now row }
{
    fill(entries, NO_ROW);
    if is_dust_in(network.class_at(row)) {
        list_feeders(network, row, entries);
    }
}

// Writes the entries of a row over those in a list.
pub fn write_row(network: Network, row: usize, list: &mut [u16])
    requires row_in_bounds { (row < length network.class.now) × (length list.old ≡ length network.class.now * 12) }
    ensures { list.new ≡ put_mid (row * 12) 12 list.old (entries_in network.entry.near.now network.entry.class.now row) }
{
    let start = row * ENTRIES;
    write_entries(network, row, &mut list[start..start + ENTRIES]);
}

// Writes the entries of every row.
fn write_list(network: Network, list: &mut [u16])
    requires list_len { length list.old ≡ length network.class.now * 12 }
    ensures { list.new ≡ concat_rows (length network.entry.class.now) (entries_in network.entry.near.now network.entry.class.now) }
{
    for i in 0..network.class.len() {
        write_row(network, i, list);
    }
}

// Writes the feeder list of a table.
fn write_table(profile: &[u8], table: &[u8], list: &mut [u16])
    requires { Table table.now × (length list.old ≡ rows_of table.now * 12) }
    ensures { list.new ≡ feeder_list profile.now table.now }
{
    let n = rows(table);
    let mut near = [0u16; 7168];
    let mut class = [0u32; 1024];
    let near = &mut near[..7 * n];
    let class = &mut class[..n];
    prepare(profile, table, near, class);
    write_list(Network { near, class }, list);
}

// Whether a list of so many entries has twelve for each row.
pub fn is_list_length(table: &[u8], count: usize) -> bool
    ensures { result ≡ is_list_length table.now count }
{
    count == rows(table) * ENTRIES
}

// Refusals 1 to 5 and 10, and 7 for a list of this many entries.
#[tactic(auto, unfolding(crate::specs::Feeds::check_feeders))]
fn check_feeders(profile: &[u8], table: &[u8], count: usize) -> Checked
    ensures { result ≡ check_feeders profile.now table.now count }
{
    check_input(profile, table)?;
    refuse_unless(Refused::COLUMN, is_list_length(table, count))
}

// Writes the feeder list of a table and answers the number of its rows; or the refusal.
pub fn feeders(profile: &[u8], table: &[u8], list: &mut [u16]) -> u32
    ensures { Feeds profile.now table.now list.old list.new result }
{
    if let Err(refused) = check_feeders(profile, table, list.len()) {
        return refused.answer();
    }
    write_table(profile, table, list);
    rows(table) as u32
}
