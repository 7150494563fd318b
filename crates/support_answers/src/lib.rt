// Whether the support list is as the original's.
#![tactic(auto)]

ghost use Rattle.std.specs.Prelude.{◌≡◌, ◌<◌, length};
ghost use Rattle.columns.specs.First.{all_below};
ghost use Rattle.support_answers.specs.Answers.{listed, entry_agrees, is_listed, supports_agree_in, supports_agree, supports_right};

use columns::all_indices;
use records::{entry, has_parts, number, slice_of};

// What a column is filled with before it is lent.
const UNTOUCHED: u16 = 65535;

// Entry i of a column that has the list at its front and is untouched behind it.
fn listed(list: &[u8], i: usize) -> u32
    ensures { result ≡ listed list.now i }
{
    if i < list.len() / 2 {
        return entry(list, i);
    }
    u32::from(UNTOUCHED)
}

fn entry_agrees(column: &[u16], list: &[u8], i: usize) -> bool
    requires { i < length column.now }
    ensures { result ≡ entry_agrees column.now list.now i }
{
    u32::from(column[i]) == listed(list, i)
}

fn all_entries_agree(column: &[u16], list: &[u8]) -> bool
    ensures { result ≡ all_below (entry_agrees column.now list.now) (length column.now) }
{
    all_indices(column.len(), |i| entry_agrees(column, list, i))
}

// Whether a column has the list at its front and is untouched behind it.
fn is_listed(column: &[u16], list: &[u8]) -> bool
    ensures { result ≡ is_listed column.now list.now }
{
    (list.len() % 2 == 0) & ((list.len() / 2 <= column.len()) & all_entries_agree(column, list))
}

// Calls with this column, and compares the answer and the whole column.
fn supports_agree_in(
    profile: &[u8],
    table: &[u8],
    list: &[u8],
    answer: u32,
    column: &mut [u16],
) -> bool
    ensures { result ≡ supports_agree_in column.old profile.now table.now list.now answer }
{
    let answered = probe::probe_support_issues(profile, table, column);
    (answered == answer) & is_listed(column, list)
}

// The support list of a table of at most 64 rows.
pub fn supports_agree(profile: &[u8], table: &[u8], list: &[u8], answer: u32) -> bool
    ensures { result ≡ supports_agree profile.now table.now list.now answer }
{
    let n = world::row::rows(table);
    if 64 < n {
        return false;
    }
    let mut column = [UNTOUCHED; 64];
    supports_agree_in(profile, table, list, answer, &mut column[..n])
}

// The same of a record.
pub fn supports_right(r: &[u8]) -> bool
    ensures { result ≡ supports_right r.now }
{
    has_parts(r, 3, 4)
        & supports_agree(
            slice_of(r, 0),
            slice_of(r, 1),
            slice_of(r, 2),
            number(r, 3, 0),
        )
}
