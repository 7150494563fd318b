// The rows by each row of a table, found by walks along its rows.
#![tactic(auto)]

ghost use Rattle.std.specs.Prelude.{◌≡◌, ◌*◌, ◌<◌, length};
ghost use Rattle.world.specs.Rows.{rows};
ghost use Rattle.refusals.specs.Accepted.{Table};
ghost use Rattle.classes.specs.Towards.{places};
ghost use Rattle.adjacency.specs.Adjacency.{near_of};
ghost use Rattle.adjacency.specs.Steps.{step_to};
ghost use Rattle.adjacency.specs.Search.{Placed, column_by};

use crate::positions::{HERE, X, Y, fill_positions};
use crate::search::walk;
use crate::supports::fill_supports;
use world::row::rows;

mod positions;
mod search;
mod supports;

const NORTH: u64 = HERE - 1;

const EAST: u64 = HERE + X;

const SOUTH: u64 = HERE + 1;

const WEST: u64 = HERE - X;

const ABOVE: u64 = HERE + Y;

const BELOW: u64 = HERE - Y;

// The step to a place but the support, packed as a position is.
fn step_to(place: usize) -> u64
    ensures { (result ≡ step_to place) × (result < 9223372036854775808) }
{
    match place {
        0 => NORTH,
        1 => EAST,
        2 => SOUTH,
        3 => WEST,
        4 => ABOVE,
        _ => BELOW,
    }
}

// The rows at one place by each row.
fn fill_place(table: &[u8], positions: &[u64], place: usize, out: &mut [u16])
    requires { Placed table.now positions.now × (length out.old ≡ rows table.now) × (place < places) }
    ensures { out.new ≡ column_by table.now place }
{
    if place < 6 {
        walk(positions, step_to(place), out);
        return;
    }
    fill_supports(table, positions, out);
}

// The rows at every place by each row.
fn fill_places(table: &[u8], positions: &[u64], near: &mut [u16])
    requires { Placed table.now positions.now × (length near.old ≡ places * rows table.now) }
    ensures { near.new ≡ near_of table.now }
{
    let n = positions.len();
    for place in 0..7 {
        let start = place * n;
        fill_place(table, positions, place, &mut near[start..start + n]);
    }
}

// The rows to the North, East, South and West of each row, above and below it, and that of its support, place by place.
pub fn fill_near(table: &[u8], near: &mut [u16])
    requires { Table table.now × (length near.old ≡ places * rows table.now) }
    ensures { near.new ≡ near_of table.now }
{
    let mut positions = [0u64; 1024];
    let positions = &mut positions[..rows(table)];
    fill_positions(table, positions);
    fill_places(table, positions, near);
}
