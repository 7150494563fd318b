// The numbers that a table settled to, read at a row: 0 past the end of a column. And what is on or off, as a number.
#![tactic(auto)]

pub mod signal;

ghost use Rattle.std.specs.Prelude.{◌≡◌};
ghost use Rattle.levels.specs.Numbers.{number, power_at, has_power, electrical_level};
ghost use Rattle.levels.specs.Lent.{lent};

use columns::{byte_at, larger};

pub fn number(b: bool) -> u8
    ensures { result ≡ number b }
{
    u8::from(b)
}

// The weak and strong power that a table settled to, as columns that are lent.
#[derive(Clone, Copy)]
pub struct Power<'a> {
    pub weak: &'a [u8],
    pub strong: &'a [u8],
}

impl<'a> Power<'a> {
    // The larger of weak and strong power: `PoweredBlockState::level`.
    pub fn level_at(self, row: usize) -> u8
        ensures { result ≡ power_at self.entry.weak.now self.entry.strong.now row }
    {
        larger(byte_at(self.weak, row), byte_at(self.strong, row))
    }

    pub fn any_at(self, row: usize) -> bool
        ensures { result ≡ has_power self.entry.weak.now self.entry.strong.now row }
    {
        self.level_at(row) != 0
    }
}

// The numbers that a table settled to, as columns that are lent.
#[derive(Clone, Copy)]
pub struct Numbers<'a> {
    pub signal: &'a [u8],
    pub power: Power<'a>,
}

impl<'a> Numbers<'a> {
    // The largest of signal, weak and strong power.
    pub fn electrical_level(self, row: usize) -> u8
        ensures { result ≡ electrical_level (lent self.entry) row }
    {
        larger(byte_at(self.signal, row), self.power.level_at(row))
    }
}
