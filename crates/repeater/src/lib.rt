// A repeater's step.
#![tactic(auto)]

ghost use Rattle.std.specs.Prelude.{◌≡◌, false, ◌≤◌, ◌<◌};
ghost use Rattle.columns.specs.First.{on_found};
ghost use Rattle.world.specs.Rows.{rows};
ghost use Rattle.edges.specs.Edges.{outputs_to};
ghost use Rattle.ports.specs.Ports.{Inside};
ghost use Rattle.levels.specs.Lent.{lent};
ghost use Rattle.repeater.specs.Step.{repeater_input_level, is_requested, locks, is_locked, next_queue, repeater_row};

use blocks::kind::is_diode;
use columns::{Found, byte_at};
use levels::Numbers;
use ports::PreparedRow;
use states::bits::two_to;
use states::row::delay_of;
use world::row::kind_of;

// What a repeater reads at a row: block power where the profile says so, else signal.
#[tactic(auto, unfolding(crate::specs::Step::repeater_input_level, blocks::specs::Profile::properties_of))]
fn repeater_input_level(profile: &[u8], table: &[u8], numbers: Numbers, row: usize) -> u8
    ensures { result ≡ repeater_input_level profile.now table.now (lent numbers.entry) row }
{
    if blocks::properties(profile, kind_of(table, row)).repeater_reads_block_power {
        return numbers.power.level_at(row);
    }
    byte_at(numbers.signal, row)
}

// Whether the input of the repeater is on.
#[tactic(auto, unfolding(crate::specs::Step::is_requested))]
fn is_requested(profile: &[u8], at: PreparedRow, numbers: Numbers) -> bool
    ensures { result ≡ is_requested profile.now at.entry.table.now (lent numbers.entry) at.entry.row }
{
    let Found::At(j) = at.input_row() else {
        return false;
    };
    repeater_input_level(profile, at.table, numbers, j) != 0
}

// Whether a row is a repeater or comparator that outputs into another.
#[tactic(auto, using(ports::proofs::Near::stands_found, columns::proofs::Truth::and_false_right), unfolding(edges::specs::Edges::outputs_to))]
fn outputs_into(from: PreparedRow, row: usize) -> bool
    requires { row < rows from.table.now }
    ensures { result ≡ outputs_to from.entry.table.now from.entry.row row }
{
    let Found::At(k) = from.output_row() else {
        return false;
    };
    is_diode(kind_of(from.table, from.row)) & (k == row)
}

// Whether the row found outputs into the row and is on.
fn locks_from(at: PreparedRow, devices: &[u8], side: Found) -> bool
    requires { Inside at.table.now side }
    ensures { result ≡ on_found (locks at.entry.table.now devices.now at.entry.row) false side }
{
    let Found::At(j) = side else {
        return false;
    };
    let from = PreparedRow {
        table: at.table,
        near: at.near,
        row: j,
    };
    outputs_into(from, at.row) & (byte_at(devices, j) != 0)
}

fn is_locked(at: PreparedRow, devices: &[u8]) -> bool
    ensures { result ≡ is_locked at.entry.table.now devices.now at.entry.row }
{
    locks_from(at, devices, at.first_side_row()) | locks_from(at, devices, at.second_side_row())
}

// The oldest bit leaves at bit 0, and the input comes in at the other end.
#[tactic(auto, unfolding(crate::specs::Step::next_queue))]
fn next_queue(queue: u8, delay: u8, requested: bool) -> u8
    requires { (1 ≤ delay) × (delay ≤ 4) }
    ensures { result ≡ next_queue queue delay requested }
{
    if requested {
        return queue / 2 + two_to(delay - 1);
    }
    queue / 2
}

#[tactic(auto, using(states::proofs::Powers::delay_range), unfolding(crate::specs::Step::repeater_row))]
pub fn repeater_step(
    profile: &[u8],
    at: PreparedRow,
    devices: &[u8],
    numbers: Numbers,
    sixteen: &mut [u8; 16],
)
    ensures { sixteen.new ≡ repeater_row profile.now at.entry.table.now devices.now (lent numbers.entry) at.entry.row sixteen.old }
{
    if is_locked(at, devices) {
        return;
    }
    let requested = is_requested(profile, at, numbers);
    let queue = next_queue(sixteen[1], delay_of(at.table, at.row), requested);
    sixteen[0] = queue % 2;
    sixteen[1] = queue;
}
