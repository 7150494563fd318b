// A bulb's step.
#![tactic(auto)]

ghost use Rattle.std.specs.Prelude.{◌≡◌};
ghost use Rattle.bulb.specs.Step.{next_bulb_light, bulb_row};

use blocks::kind;
use levels::{Power, number};

// The light flips as power arrives, and at no other time.
#[tactic(auto, unfolding(crate::specs::Step::next_bulb_light))]
fn next_bulb_light(power: bool, had_power: u8, light: u8) -> u8
    ensures { result ≡ next_bulb_light power had_power light }
{
    if power & (had_power == 0) {
        return number(light == 0);
    }
    light
}

// The bulb of a row, from the new settled power.
#[tactic(auto, unfolding(crate::specs::Step::bulb_row))]
pub fn bulb_step(table: &[u8], power: Power, row: usize, sixteen: &mut [u8; 16])
    ensures { sixteen.new ≡ bulb_row table.now power.entry.weak.now power.entry.strong.now row sixteen.old }
{
    if world::row::kind_of(table, row) == kind::COPPER_BULB {
        let power = power.any_at(row);
        let power_now = number(power);
        let had_power = sixteen[9];
        let light = sixteen[2];
        sixteen[2] = next_bulb_light(power, had_power, light);
        sixteen[9] = power_now;
    }
}
