// The rows whose support is missing or does not support components: `support_issues`.
#![tactic(auto)]

ghost use Rattle.std.specs.Prelude.{◌≡◌, ◌≤◌, length};
ghost use Rattle.columns.specs.Column.{at_front};
ghost use Rattle.world.specs.Rows.{rows};
ghost use Rattle.supports.specs.Rows.{support_row};
ghost use Rattle.supports.specs.Supports.{needs_support, is_supported, lacks_support, support_issues, check_supports, Listed};

use blocks::kind;
use columns::Found;
use refusals::{Checked, Refused, check_input, refuse_unless};
use world::row;

pub fn needs_support(kind: u8) -> bool
    ensures { result ≡ needs_support kind }
{
    matches!(
        kind,
        kind::REDSTONE_WIRE | kind::REDSTONE_TORCH | kind::REPEATER | kind::COMPARATOR | kind::LEVER
    )
}

// The row of the support, where that supports components.
#[tactic(auto, unfolding(crate::specs::Rows::support_row))]
pub fn support_row(profile: &[u8], table: &[u8], row: usize) -> Found
    ensures { result ≡ support_row profile.now table.now row }
{
    let Found::At(j) = world::find::find_at(table, row::support_pos(table, row)) else {
        return Found::Nothing;
    };
    if traits::redstone_traits(profile, table, j).supports {
        Found::At(j)
    } else {
        Found::Nothing
    }
}

// Whether the row has a support that supports components.
#[tactic(auto, using(crate::proofs::Rows::supported_found))]
fn is_supported(profile: &[u8], table: &[u8], row: usize) -> bool
    ensures { result ≡ is_supported profile.now table.now row }
{
    matches!(support_row(profile, table, row), Found::At(_))
}

// Whether the row needs a support and has none.
#[tactic(auto, unfolding(crate::specs::Supports::lacks_support))]
pub fn lacks_support(profile: &[u8], table: &[u8], row: usize) -> bool
    ensures { result ≡ lacks_support profile.now table.now row }
{
    needs_support(row::kind_of(table, row)) && !is_supported(profile, table, row)
}

// Writes the rows that lack a support to the front of a column of one entry a row; how many there are.
#[tactic(auto, unfolding(crate::specs::Supports::support_issues))]
fn list_issues(profile: &[u8], table: &[u8], column: &mut [u16]) -> usize
    requires { (length column.old ≡ rows table.now) × (rows table.now ≤ 1024) }
    ensures count { result ≡ length (support_issues profile.now table.now) }
    ensures few { result ≤ 1024 }
    ensures entries { column.new ≡ at_front (support_issues profile.now table.now) column.old }
{
    let mut count = 0;
    for i in 0..row::rows(table) {
        if lacks_support(profile, table, i) {
            column[count] = i as u16;
            count += 1;
        }
    }
    count
}

// Refusals 1 to 5 and 10, and 7 for a column of this many entries.
#[tactic(auto, unfolding(crate::specs::Supports::check_supports))]
fn check_supports(profile: &[u8], table: &[u8], entries: usize) -> Checked
    ensures { result ≡ check_supports profile.now table.now entries }
{
    check_input(profile, table)?;
    refuse_unless(Refused::COLUMN, entries == row::rows(table))
}

// Lists the rows that lack a support at the front of the column, in order, and answers how many; or the refusal.
pub fn support_issues(profile: &[u8], table: &[u8], column: &mut [u16]) -> u32
    ensures { Listed profile.now table.now column.old column.new result }
{
    if let Err(refused) = check_supports(profile, table, column.len()) {
        return refused.answer();
    }
    list_issues(profile, table, column) as u32
}
