// A comparator's step.
#![tactic(auto)]

ghost use Rattle.std.specs.Prelude.{◌≡◌};
ghost use Rattle.columns.specs.First.{on_found};
ghost use Rattle.connectivity.specs.Ports.{sides_of};
ghost use Rattle.levels.specs.Lent.{lent};
ghost use Rattle.levels.specs.Numbers.{electrical_level};
ghost use Rattle.comparator.specs.Step.{side_level, compared, next_comparator};

use columns::{Found, larger};
use levels::Numbers;
use ports::PreparedRow;

// The largest of signal, weak and strong power at the row found, 0 where there is none.
fn level_at(numbers: Numbers, found: Found) -> u8
    ensures { result ≡ on_found (electrical_level (lent numbers.entry)) 0 found }
{
    let Found::At(j) = found else {
        return 0;
    };
    numbers.electrical_level(j)
}

// The larger level of the two sides.
fn side_level(at: PreparedRow, numbers: Numbers) -> u8
    ensures { result ≡ side_level at.entry.table.now (lent numbers.entry) (sides_of at.entry.table.now at.entry.row) }
{
    larger(
        level_at(numbers, at.first_side_row()),
        level_at(numbers, at.second_side_row()),
    )
}

#[tactic(auto, unfolding(crate::specs::Step::compared))]
fn compared(subtract: bool, rear: u8, side: u8) -> u8
    ensures { result ≡ compared subtract rear side }
{
    if rear < side {
        return 0;
    }
    if subtract { rear - side } else { rear }
}

#[tactic(auto, unfolding(crate::specs::Step::next_comparator))]
pub fn next_comparator(at: PreparedRow, numbers: Numbers) -> u8
    ensures { result ≡ next_comparator at.entry.table.now (lent numbers.entry) at.entry.row }
{
    let rear = level_at(numbers, at.input_row());
    let side = side_level(at, numbers);
    compared(world::row::is_subtract(at.table, at.row), rear, side)
}
