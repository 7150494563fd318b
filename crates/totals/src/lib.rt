// The month of a stream of tables, which is read piece by piece.
#![tactic(auto)]

ghost use Rattle.std.specs.Prelude.{◌≡◌, [], ◌∷◌, ◌≤◌};
ghost use Rattle.columns.specs.Column.{Bytes};
ghost use Rattle.world.specs.Rows.{rows};
ghost use Rattle.figures.specs.Figures.{figures_of, added};
ghost use Rattle.figures.specs.Room.{Room};
ghost use Rattle.totals.specs.Month.{month_of, IsOpen, GoesOn};

use figures::Figures;
use streams::{COUNT_BYTES, Ending, MOST_TABLES};
use words::from;
use world::row;

#[derive(Drop)]
pub struct Month {
    pub figures: Figures,
    pub ending: Ending,
}

// The month of no bytes.
pub fn start() -> Month
    ensures { (p : Bytes) → result ≡ month_of p [] }
{
    Month {
        figures: Figures {
            tables: 0,
            refused: 0,
            rounds: [0; 17],
            levels: [0; 16],
        },
        ending: Ending::Whole,
    }
}

// The figures with a table more, which is settled or refused.
fn with_table(figures: Figures, profile: &[u8], table: &[u8]) -> Figures
    requires { Room figures × (rows table.now ≤ 1024) }
    ensures { result ≡ added figures (figures_of profile.now (table.now ∷ [])) }
{
    let settled = initial::settle(profile, table);
    let answer = settled.answer;
    if 65536 <= answer {
        return figures::with_refused(figures);
    }
    let signal = settled.signal;
    let n = row::rows(table);
    figures::with_settled(figures, table, answer, &signal[..n])
}

// The month with these bytes more, of any number of tables.
pub fn read(month: Month, profile: &[u8], bytes: &[u8]) -> Month
    requires { IsOpen profile.now month }
    ensures { GoesOn profile.now month bytes.now result }
{
    let mut figures = month.figures;
    let mut rest = bytes;
    // How long a table is, is read from the stream.
    loop {
        let left = MOST_TABLES - (figures.tables + figures.refused);
        if let Some(ending) = streams::front_of(left, rest) {
            return Month { figures, ending };
        }
        let size = streams::row_count(rest) * row::WIDTH;
        let (table, later) = from(rest, COUNT_BYTES).split_at(size);
        figures = with_table(figures, profile, table);
        rest = later;
    }
}
