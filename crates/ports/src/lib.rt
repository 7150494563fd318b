// The rows at a device's output and input, at its sides and at its support, by the rows that were found by each row.
#![tactic(auto)]

ghost use Rattle.std.specs.Prelude.{◌≡◌, ◌<◌};
ghost use Rattle.world.specs.Rows.{rows, pos_of, support_of};
ghost use Rattle.world.specs.Find.{find_at};
ghost use Rattle.connectivity.specs.Ports.{ahead, output_of, input_of};
ghost use Rattle.classes.specs.Towards.{places};
ghost use Rattle.adjacency.specs.Adjacency.{place_by};
ghost use Rattle.ports.specs.Ports.{Prepared, found_in, sideward, first_side, second_side};

use circuit::sinks::NO_ROW;
use columns::Found;
use places::Facing;
use world::row::facing_of;

// The place of the support.
const SUPPORT: usize = 6;

fn found_in(entry: u16) -> Found
    ensures { result ≡ found_in entry }
{
    if entry == NO_ROW {
        return Found::Nothing;
    }
    Found::At(usize::from(entry))
}

// East where a block faces North or South, North where it faces East or West.
#[tactic(auto, unfolding(crate::specs::Ports::sideward))]
fn sideward(facing: u8) -> Facing
    ensures { result.code ≡ sideward facing }
{
    match facing {
        Facing::NORTH | Facing::SOUTH => Facing { code: Facing::EAST },
        Facing::EAST | Facing::WEST => Facing {
            code: Facing::NORTH,
        },
        _ => Facing { code: 0 },
    }
}

// A row of an accepted table, with the rows that were found by each row.
#[derive(Clone, Copy)]
pub struct PreparedRow<'a> {
    pub table: &'a [u8],
    pub near: &'a [u16],
    pub row: usize,
    pub ghost prepared: { Prepared table.now near.now row },
}

impl<'a> PreparedRow<'a> {
    // The row at a place by the row.
    fn row_by(self, place: usize) -> Found
        requires { place < places }
        ensures { result ≡ find_at self.entry.table.now (place_by self.entry.table.now self.entry.row place) }
    {
        found_in(self.near[place * world::row::rows(self.table) + self.row])
    }

    // The row beside the row along a horizontal facing; none along any other.
    #[tactic(auto, unfolding(connectivity::specs::Ports::ahead, adjacency::specs::Adjacency::place_by))]
    fn row_ahead(self, facing: Facing) -> Found
        ensures { result ≡ find_at self.entry.table.now (ahead (pos_of self.entry.table.now self.entry.row) facing.code) }
    {
        match facing.code {
            Facing::NORTH..=Facing::WEST => self.row_by(usize::from(facing.code - Facing::NORTH)),
            _ => Found::Nothing,
        }
    }

    #[tactic(auto, unfolding(connectivity::specs::Ports::output_of))]
    pub fn output_row(self) -> Found
        ensures { result ≡ find_at self.entry.table.now (output_of self.entry.table.now self.entry.row) }
    {
        let facing = Facing {
            code: facing_of(self.table, self.row),
        };
        self.row_ahead(facing)
    }

    #[tactic(auto, unfolding(connectivity::specs::Ports::input_of))]
    pub fn input_row(self) -> Found
        ensures { result ≡ find_at self.entry.table.now (input_of self.entry.table.now self.entry.row) }
    {
        let facing = Facing {
            code: facing_of(self.table, self.row),
        };
        let back = facing.opposite();
        self.row_ahead(back)
    }

    #[tactic(auto, unfolding(crate::specs::Ports::first_side))]
    pub fn first_side_row(self) -> Found
        ensures { result ≡ find_at self.entry.table.now (first_side self.entry.table.now self.entry.row) }
    {
        self.row_ahead(sideward(facing_of(self.table, self.row)))
    }

    #[tactic(auto, unfolding(crate::specs::Ports::second_side))]
    pub fn second_side_row(self) -> Found
        ensures { result ≡ find_at self.entry.table.now (second_side self.entry.table.now self.entry.row) }
    {
        self.row_ahead(sideward(facing_of(self.table, self.row)).opposite())
    }

    #[tactic(auto, unfolding(adjacency::specs::Adjacency::place_by))]
    pub fn support_row(self) -> Found
        ensures { result ≡ find_at self.entry.table.now (support_of self.entry.table.now self.entry.row) }
    {
        self.row_by(SUPPORT)
    }
}
