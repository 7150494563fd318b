// The figures of a month: how many tables settle, in how many rounds, and to which levels of dust.
#![tactic(auto)]

mod dust;

ghost use Rattle.std.specs.Prelude.{◌≡◌, ℕ, ◌+◌, ◌<◌, ◌≤◌, ◌^◌};
ghost use Rattle.columns.specs.Column.{row};
ghost use Rattle.figures.specs.Figures.{with_rounds, with_settled, with_refused};
ghost use Rattle.figures.specs.Room.{Room, Capped};

use dust::with_levels;

#[derive(Drop)]
pub struct Figures {
    // Those settled.
    pub tables: u64,
    pub refused: u64,
    // Entry k counts the tables that settle in k + 1 rounds.
    pub rounds: [u64; 17],
    // Entry l counts the dust rows of level l.
    pub levels: [u64; 16],
}

// One more at a number of rounds.
fn with_rounds(counts: [u64; 17], rounds: u32) -> [u64; 17]
    requires le_rounds { (1 ≤ rounds) × (rounds ≤ 17) }
    requires by_index { (k : ℕ) → row counts k + 1 < 2 ^ 64 }
    ensures { result ≡ with_rounds counts rounds }
{
    let mut more = counts;
    let k = (rounds - 1) as usize;
    more[k] += 1;
    more
}

// With a table that settles in so many rounds, to these signals.
pub fn with_settled(figures: Figures, table: &[u8], rounds: u32, signal: &[u8]) -> Figures
    requires room { Room figures }
    requires le_rounds { (1 ≤ rounds) × (rounds ≤ 17) }
    requires capped { Capped table.now signal.now }
    ensures { result ≡ with_settled figures table.now rounds signal.now }
{
    let counts = figures.rounds;
    let levels = figures.levels;
    Figures {
        tables: figures.tables + 1,
        refused: figures.refused,
        rounds: with_rounds(counts, rounds),
        levels: with_levels(levels, table, signal),
    }
}

// With a table that is refused.
pub fn with_refused(figures: Figures) -> Figures
    requires { Room figures }
    ensures { result ≡ with_refused figures }
{
    let mut more = figures;
    more.refused += 1;
    more
}
