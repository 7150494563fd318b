// The fields of a row's sixteen bytes, and which values are within the layout.
ghost use Rattle.std.specs.Prelude.{◌≡◌};
ghost use Rattle.states.specs.Row.{toggles_of, delay_of, good_queue, good_light, good_torch, good_had_power, good_rest, good_state};

use crate::bits::{is_candidate, two_to};
use blocks::kind;
use columns::{all_indices, byte_at};
use emitted::device::good_device;
use world::row::kind_of;

// The delay of a repeater: 1 if missing, and clamped to 1 to 4.
#[tactic(auto, unfolding(crate::specs::Row::delay_of))]
pub fn delay_of(table: &[u8], row: usize) -> u8
    ensures { result ≡ delay_of table.now row }
{
    world::row::delay_or(table, row, 1).clamp(1, 4)
}

// The torch's toggles: bit j for a toggle j ticks ago.
pub fn toggles_of(sixteen: &[u8]) -> u32
    ensures { result ≡ toggles_of sixteen.now }
{
    words::word(words::from(sixteen, 4))
}

#[tactic(auto, using(crate::proofs::Powers::delay_range), unfolding(crate::specs::Row::good_queue))]
fn good_queue(table: &[u8], row: usize, sixteen: &[u8]) -> bool
    ensures { result ≡ good_queue table.now row sixteen.now }
{
    let queue = byte_at(sixteen, 1);
    if kind_of(table, row) == kind::REPEATER {
        let bits = delay_of(table, row);
        return (queue < two_to(bits)) & (queue % 2 == byte_at(sixteen, 0));
    }
    queue == 0
}

#[tactic(auto, unfolding(crate::specs::Row::good_light))]
fn good_light(table: &[u8], row: usize, sixteen: &[u8]) -> bool
    ensures { result ≡ good_light table.now row sixteen.now }
{
    let lit = byte_at(sixteen, 2);
    let left = byte_at(sixteen, 3);
    match kind_of(table, row) {
        kind::REDSTONE_LAMP => (lit <= 1) & ((left <= 2) & ((lit == 1) | (left == 0))),
        kind::COPPER_BULB => (lit <= 1) & (left == 0),
        _ => (lit == 0) & (left == 0),
    }
}

#[tactic(auto, unfolding(crate::specs::Row::good_torch))]
fn good_torch(table: &[u8], row: usize, sixteen: &[u8]) -> bool
    ensures { result ≡ good_torch table.now row sixteen.now }
{
    let toggles = toggles_of(sixteen);
    let candidate = byte_at(sixteen, 8);
    if kind_of(table, row) == kind::REDSTONE_TORCH {
        return (toggles < 2147483648)
            & ((candidate <= 1) & ((candidate == 1) | !is_candidate(toggles)));
    }
    (toggles == 0) & (candidate == 0)
}

#[tactic(auto, unfolding(crate::specs::Row::good_had_power))]
fn good_had_power(table: &[u8], row: usize, sixteen: &[u8]) -> bool
    ensures { result ≡ good_had_power table.now row sixteen.now }
{
    let had_power = byte_at(sixteen, 9);
    if kind_of(table, row) == kind::COPPER_BULB {
        return had_power <= 1;
    }
    had_power == 0
}

// Whether bytes 10 to 15 are 0.
fn good_rest(sixteen: &[u8]) -> bool
    ensures { result ≡ good_rest sixteen.now }
{
    all_indices(6, |k| byte_at(sixteen, 10 + k) == 0)
}

// Whether sixteen bytes are within the layout, for this row.
#[tactic(auto, unfolding(crate::specs::Row::good_state))]
pub fn good_state(table: &[u8], row: usize, sixteen: &[u8]) -> bool
    ensures { result ≡ good_state table.now row sixteen.now }
{
    good_device(kind_of(table, row), byte_at(sixteen, 0))
        & (good_queue(table, row, sixteen)
            & (good_light(table, row, sixteen)
                & (good_torch(table, row, sixteen)
                    & (good_had_power(table, row, sixteen) & good_rest(sixteen)))))
}
