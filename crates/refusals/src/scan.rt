// The first row at fault.
ghost use Rattle.std.specs.Prelude.{◌≡◌, ◌*◌, ◌-◌, ◌≤◌, length, get_or};
ghost use Rattle.columns.specs.First.{first_from};
ghost use Rattle.refusals.specs.Check.{is_bad, is_misplaced, is_overdriven, is_overdriven_device};

use crate::row::{is_bad, is_misplaced, is_overdriven};
use columns::{Found, byte_at, first_index};
use levels::signal::Signal;
use world::row::row_in;

// The first row outside the layout, or of a kind that is none of so many.
pub fn first_bad(kinds: usize, table: &[u8], rows: usize) -> Found
    requires { rows * 32 ≤ length table.now }
    ensures { result ≡ first_from (is_bad kinds table.now) rows 0 }
{
    first_index(rows, |i| is_bad(kinds, row_in(table, i)))
}

// The first row whose next row does not come after it.
pub fn first_misplaced(table: &[u8], rows: usize) -> Found
    requires { rows * 32 ≤ length table.now }
    ensures { result ≡ first_from (is_misplaced table.now) (rows - 1) 0 }
{
    first_index(
        rows.saturating_sub(1),
        |i| is_misplaced(row_in(table, i), row_in(table, i + 1)),
    )
}

// The first comparator whose given level is above 15.
pub fn first_overdriven(table: &[u8], rows: usize) -> Found
    requires { rows * 32 ≤ length table.now }
    ensures { result ≡ first_from (is_overdriven table.now) rows 0 }
{
    first_index(rows, |i| is_overdriven(row_in(table, i)))
}

// The first row whose device byte, the first of so many bytes of the row, is above 15.
pub fn first_overdriven_device(bytes: &[u8], width: usize, rows: usize) -> Found
    requires { length bytes.now ≡ rows * width }
    ensures { result ≡ first_from (is_overdriven_device (λ i. get_or bytes.now (i * width) 0)) rows 0 }
{
    first_index(rows, |i| Signal::MAX < byte_at(bytes, i * width))
}
