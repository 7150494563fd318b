// Device columns: one byte a row, valid or refused.
ghost use Rattle.std.specs.Prelude.{◌≡◌, ◌≤◌};
ghost use Rattle.columns.specs.First.{first_from};
ghost use Rattle.world.specs.Rows.{rows as rows_of};
ghost use Rattle.refusals.specs.Check.{or_else, check_input};
ghost use Rattle.emitted.specs.Emitted.{good_device, is_bad_device, check_devices};

use blocks::kind;
use columns::{Found, byte_at, first_index};
use refusals::{Checked, Refused, check_input, check_overdriven, refuse_at, refuse_unless};
use world::row::{kind_of, rows};

// Whether a row of the kind may have the byte.
pub fn good_device(kind: u8, byte: u8) -> bool
    ensures { result ≡ good_device kind byte }
{
    if (kind == kind::REDSTONE_TORCH) | (kind == kind::REPEATER) {
        return byte <= 1;
    }
    (kind == kind::COMPARATOR) | (byte == 0)
}

// The first row whose byte is not of its kind.
fn first_bad_device(table: &[u8], devices: &[u8], rows: usize) -> Found
    ensures { result ≡ first_from (is_bad_device table.now devices.now) rows 0 }
{
    first_index(
        rows,
        |i| !good_device(kind_of(table, i), byte_at(devices, i)),
    )
}

// Refusals 6 and 10, over a table that is not crowded, so that the number of the row at fault fits.
#[tactic(auto, unfolding(crate::specs::Emitted::check_devices))]
fn check_column(table: &[u8], devices: &[u8]) -> Checked
    requires { rows_of table.now ≤ 1024 }
    ensures { result ≡ check_devices table.now devices.now }
{
    let rows = rows(table);
    refuse_unless(Refused::BAD_STATE, devices.len() == rows)?;
    let bad = first_bad_device(table, devices, rows);
    refuse_at(Refused::BAD_STATE, bad, 0)?;
    check_overdriven(devices, 1, rows)
}

// Refusals 1 to 6 and 10.
pub fn check_devices(profile: &[u8], table: &[u8], devices: &[u8]) -> Checked
    ensures { result ≡ or_else (check_input profile.now table.now) (check_devices table.now devices.now) }
{
    check_input(profile, table)?;
    check_column(table, devices)
}
