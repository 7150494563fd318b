// The refusals of a call that settles.
#![tactic(auto)]

ghost use Rattle.std.specs.Prelude.{◌≡◌};
ghost use Rattle.electrical.specs.Answer.{good_columns, check_call};

use refusals::{Checked, Refused, refuse_unless};
use world::row::rows;

// Whether each of the three output columns has one entry a row.
pub fn good_columns(table: &[u8], signal: usize, weak: usize, strong: usize) -> bool
    ensures { result ≡ good_columns table.now signal weak strong }
{
    let rows = rows(table);
    signal == rows && weak == rows && strong == rows
}

// Refusals 1 to 7 and 10, of output columns of these lengths.
#[tactic(auto, unfolding(crate::specs::Answer::check_call))]
pub fn check_call(
    profile: &[u8],
    table: &[u8],
    devices: &[u8],
    signal: usize,
    weak: usize,
    strong: usize,
) -> Checked
    ensures { result ≡ check_call profile.now table.now devices.now signal weak strong }
{
    emitted::device::check_devices(profile, table, devices)?;
    refuse_unless(Refused::COLUMN, good_columns(table, signal, weak, strong))
}
