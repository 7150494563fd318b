// The fresh state of a row.
#![tactic(auto)]

ghost use Rattle.std.specs.Prelude.{◌≡◌};
ghost use Rattle.fresh.specs.Fresh.{fresh_device, fresh_queue, fresh_light, fresh_had_power, fresh_row};

use blocks::kind;
use levels::signal::Signal;
use levels::{Power, number};
use states::bits::two_to;
use states::row::delay_of;
use world::row::{is_powered, kind_of, level_or, powered_of};

// The device byte of a row that was just built: `DeviceOutputState::initially_lit`.
#[tactic(auto, unfolding(crate::specs::Fresh::fresh_device))]
pub fn fresh_device(table: &[u8], row: usize) -> u8
    ensures { result ≡ fresh_device table.now row }
{
    match kind_of(table, row) {
        kind::REPEATER => number(is_powered(table, row)),
        kind::REDSTONE_TORCH => number(powered_of(table, row) != 1),
        kind::COMPARATOR => level_or(table, row, Signal::unsaid(is_powered(table, row))),
        _ => 0,
    }
}

// The device byte in as many bits as the delay.
#[tactic(auto, using(states::proofs::Powers::delay_range), unfolding(crate::specs::Fresh::fresh_queue, crate::specs::Fresh::fresh_device))]
fn fresh_queue(table: &[u8], row: usize) -> u8
    ensures { result ≡ fresh_queue table.now row }
{
    if (kind_of(table, row) == kind::REPEATER) & is_powered(table, row) {
        return two_to(delay_of(table, row)) - 1;
    }
    0
}

#[tactic(auto, unfolding(crate::specs::Fresh::fresh_light))]
fn fresh_light(table: &[u8], power: Power, row: usize) -> u8
    ensures { result ≡ fresh_light table.now power.entry.weak.now power.entry.strong.now row }
{
    match kind_of(table, row) {
        kind::REDSTONE_LAMP => number(power.any_at(row)),
        kind::COPPER_BULB => number(is_powered(table, row)),
        _ => 0,
    }
}

// Whether a bulb has power as it is built.
#[tactic(auto, unfolding(crate::specs::Fresh::fresh_had_power))]
fn fresh_had_power(table: &[u8], power: Power, row: usize) -> u8
    ensures { result ≡ fresh_had_power table.now power.entry.weak.now power.entry.strong.now row }
{
    number((kind_of(table, row) == kind::COPPER_BULB) & power.any_at(row))
}

// The sixteen bytes of a row that was just built, from the settled power.
#[tactic(auto, unfolding(crate::specs::Fresh::fresh_row))]
pub fn fresh_step(table: &[u8], power: Power, row: usize, sixteen: &mut [u8; 16])
    ensures { sixteen.new ≡ fresh_row table.now power.entry.weak.now power.entry.strong.now row }
{
    sixteen.fill(0);
    sixteen[0] = fresh_device(table, row);
    sixteen[1] = fresh_queue(table, row);
    sixteen[2] = fresh_light(table, power, row);
    sixteen[9] = fresh_had_power(table, power, row);
}
