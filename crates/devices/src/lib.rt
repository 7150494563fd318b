// What a tick makes of one row's sixteen bytes of state, by its kind.
#![tactic(auto)]

ghost use Rattle.std.specs.Prelude.{◌≡◌};
ghost use Rattle.levels.specs.Lent.{lent};
ghost use Rattle.devices.specs.Step.{device_row, light_row};

use blocks::kind;
use levels::{Numbers, Power};
use ports::PreparedRow;

// The device of a row, by its kind, from the old devices and the old settled columns. The row's own bytes are lent.
#[tactic(auto, unfolding(crate::specs::Step::device_row))]
pub fn device_step(
    profile: &[u8],
    at: PreparedRow,
    devices: &[u8],
    numbers: Numbers,
    sixteen: &mut [u8; 16],
)
    ensures { sixteen.new ≡ device_row profile.now at.entry.table.now devices.now (lent numbers.entry) at.entry.row sixteen.old }
{
    match world::row::kind_of(at.table, at.row) {
        kind::REPEATER => repeater::repeater_step(profile, at, devices, numbers, sixteen),
        kind::REDSTONE_TORCH => torch::torch_step(profile, at, numbers.power, sixteen),
        kind::COMPARATOR => sixteen[0] = comparator::next_comparator(at, numbers),
        _ => {}
    }
}

// The lamp or bulb of a row, from the new settled power. A row of another kind stays as it is.
#[tactic(auto, unfolding(crate::specs::Step::light_row))]
pub fn light_step(table: &[u8], power: Power, row: usize, sixteen: &mut [u8; 16])
    ensures { sixteen.new ≡ light_row table.now power.entry.weak.now power.entry.strong.now row sixteen.old }
{
    lamp::lamp_step(table, power, row, sixteen);
    bulb::bulb_step(table, power, row, sixteen);
}
