// The levels of dust, counted.
ghost use Rattle.std.specs.Prelude.{◌≡◌, ℕ, ◌+◌, ◌<◌, ◌^◌};
ghost use Rattle.columns.specs.Column.{row as Column·row};
ghost use Rattle.figures.specs.Figures.{with_levels};
ghost use Rattle.figures.specs.Room.{Capped};

use blocks::kind::REDSTONE_WIRE;
use columns::byte_at;
use world::row;

// One more at the level of each dust row of a table with these signals.
pub fn with_levels(levels: [u64; 16], table: &[u8], signal: &[u8]) -> [u64; 16]
    requires capped { Capped table.now signal.now }
    requires by_index { (l : ℕ) → Column·row levels l + 1024 < 2 ^ 64 }
    ensures { result ≡ with_levels levels table.now signal.now }
{
    let mut counts = levels;
    for i in 0..row::rows(table) {
        if row::kind_of(table, i) == REDSTONE_WIRE {
            let level = byte_at(signal, i) as usize;
            counts[level] += 1;
        }
    }
    counts
}
