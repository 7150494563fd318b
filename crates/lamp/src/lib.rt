// A lamp's step.
#![tactic(auto)]

ghost use Rattle.std.specs.Prelude.{◌≡◌};
ghost use Rattle.lamp.specs.Step.{next_lit, next_left, lamp_row};

use blocks::kind;
use levels::Power;

#[tactic(auto, unfolding(crate::specs::Step::next_lit))]
fn next_lit(power: bool, lit: u8, left: u8) -> u8
    ensures { result ≡ next_lit power lit left }
{
    if power {
        return 1;
    }
    if left == 1 { 0 } else { lit }
}

// A lamp that goes dark has two ticks left.
#[tactic(auto, unfolding(crate::specs::Step::next_left))]
fn next_left(power: bool, lit: u8, left: u8) -> u8
    ensures { result ≡ next_left power lit left }
{
    if power | (lit == 0) {
        return 0;
    }
    if left == 0 { 2 } else { left - 1 }
}

// The lamp of a row, from the new settled power.
#[tactic(auto, unfolding(crate::specs::Step::lamp_row))]
pub fn lamp_step(table: &[u8], power: Power, row: usize, sixteen: &mut [u8; 16])
    ensures { sixteen.new ≡ lamp_row table.now power.entry.weak.now power.entry.strong.now row sixteen.old }
{
    if world::row::kind_of(table, row) == kind::REDSTONE_LAMP {
        let power = power.any_at(row);
        let lit = sixteen[2];
        let left = sixteen[3];
        sixteen[2] = next_lit(power, lit, left);
        sixteen[3] = next_left(power, lit, left);
    }
}
