// A table cleared of the rows that would drop. What holds each row up is looked up once. Which rows are left is read from the column of passes itself:
// a row without a mark has not gone.
#![tactic(auto)]

ghost use Rattle.std.specs.Prelude.{◌≡◌, ◌&&◌, ℕ, ◌≤◌, ◌<◌, length, ltb};
ghost use Rattle.columns.specs.Column.{row as entry, at_front};
ghost use Rattle.columns.specs.First.{indices_from};
ghost use Rattle.world.specs.Rows.{rows};
ghost use Rattle.refusals.specs.Accepted.{Table};
ghost use Rattle.subtables.specs.Subtable.{table_of};
ghost use Rattle.clearing.specs.Kept.{pass_column};
ghost use Rattle.clear.specs.Clear.{check_clear, Clears};
ghost use Rattle.clear.specs.Marks.{holder_of, holders_of, unmarked, left_at, goes, marked, any_goes};

use columns::Found;
use refusals::{Checked, Refused, check_input, refuse_unless};
use subtables::put_row;
use supports::{needs_support, support_row};
use world::row;

const MOST_ROWS: usize = 1024;

// The number of no row.
const NO_ROW: u16 = 65535;

// Whether there is such a row and it was left when the pass began: it has no mark, or that of the pass.
fn left_at(passes: &[u16], pass: u16, row: u16) -> bool
    ensures { result ≡ (ltb row (length passes.now) && left_at passes.now pass row) }
{
    passes
        .get(usize::from(row))
        .is_some_and(|mark| *mark == 0 || *mark == pass)
}

// What holds the row up: the row of its support, where that supports components, NO_ROW where there is none, and the row itself where it needs none.
#[tactic(auto, unfolding(crate::specs::Marks::holder_of))]
fn holder(profile: &[u8], table: &[u8], row: usize) -> u16
    requires { (row < rows table.now) × (rows table.now ≤ 1024) }
    ensures { result ≡ holder_of profile.now table.now row }
{
    if !needs_support(row::kind_of(table, row)) {
        return row as u16;
    }
    match support_row(profile, table, row) {
        Found::At(j) => j as u16,
        Found::Nothing => NO_ROW,
    }
}

// Writes what holds each row up.
fn fill_holders(profile: &[u8], table: &[u8], holders: &mut [u16])
    requires { (length holders.old ≡ rows table.now) × (rows table.now ≤ 1024) }
    ensures { holders.new ≡ holders_of profile.now table.now }
{
    for (i, held) in holders.iter_mut().enumerate() {
        *held = holder(profile, table, i);
    }
}

// Whether the row goes in the pass.
fn goes(holders: &[u16], passes: &[u16], pass: u16, row: usize) -> bool
    requires { (length holders.now ≡ length passes.now) × (row < length passes.now) }
    ensures { result ≡ goes holders.now (left_at passes.now pass) passes.now row }
{
    passes[row] == 0 && !left_at(passes, pass, holders[row])
}

// Marks the rows that go in the pass with its number; whether there are any.
fn clear_pass(holders: &[u16], passes: &mut [u16], pass: u16) -> bool
    requires { (length holders.now ≡ length passes.old) × ((i : ℕ) → entry passes.old i < pass) }
    ensures column { passes.new ≡ marked holders.now passes.old pass }
    ensures any { result ≡ any_goes holders.now passes.old }
{
    let mut any = false;
    for i in 0..passes.len() {
        if goes(holders, passes, pass, i) {
            passes[i] = pass;
            any = true;
        }
    }
    any
}

// Writes the pass in which each row goes, from 1, or 0.
fn clear_passes(profile: &[u8], table: &[u8], holders: &mut [u16], passes: &mut [u16])
    requires { Table table.now × (length holders.old ≡ rows table.now) × (length passes.old ≡ rows table.now) }
    ensures { passes.new ≡ pass_column profile.now table.now }
{
    fill_holders(profile, table, holders);
    passes.fill(0);
    let mut pass = 1;
    // How many passes there are is not known before one marks nothing.
    while clear_pass(holders, passes, pass) {
        pass += 1;
    }
}

// Copies the rows without a mark to the front of the output, in order; how many there are.
fn keep_rows(table: &[u8], passes: &[u16], kept: &mut [u8]) -> usize
    requires { Table table.now × (length passes.now ≡ rows table.now) × (length kept.old ≡ length table.now) }
    ensures count { result ≡ length (indices_from (unmarked passes.now) (rows table.now) 0) }
    ensures few { result ≤ 1024 }
    ensures bytes { kept.new ≡ at_front (table_of table.now (indices_from (unmarked passes.now) (rows table.now) 0)) kept.old }
{
    let mut count = 0;
    for (i, pass) in passes.iter().enumerate() {
        if *pass == 0 {
            put_row(table, i, kept, count);
            count += 1;
        }
    }
    count
}

// Refusals 1 to 5 and 10, and 7 for an output of this many bytes and a column of this many entries.
#[tactic(auto, unfolding(crate::specs::Clear::check_clear))]
fn check_clear(profile: &[u8], table: &[u8], bytes: usize, entries: usize) -> Checked
    ensures { result ≡ check_clear profile.now table.now bytes entries }
{
    check_input(profile, table)?;
    let room = (bytes == table.len()) & (entries == row::rows(table));
    refuse_unless(Refused::COLUMN, room)
}

// Writes the rows that are kept to the front of the output, and the pass in which each row went, or 0; answers how many are kept, or the refusal.
pub fn clear(profile: &[u8], table: &[u8], kept: &mut [u8], passes: &mut [u16]) -> u32
    ensures { Clears profile.now table.now kept.old kept.new passes.old passes.new result }
{
    if let Err(refused) = check_clear(profile, table, kept.len(), passes.len()) {
        return refused.answer();
    }
    let mut holders = [0u16; MOST_ROWS];
    clear_passes(profile, table, &mut holders[..passes.len()], passes);
    keep_rows(table, passes, kept) as u32
}
