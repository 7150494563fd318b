// The look-up of a position, on a plain slice: `World::get` and `World::kind_at`.
ghost use Rattle.std.specs.Prelude.{◌≡◌};
ghost use Rattle.world.specs.Find.{is_at_or_past, first_at_or_past, if_standing, find, find_at, kind_at};

use crate::row;
use columns::{Found, first_index};
use places::Pos;

// Whether a row stands at a position or past it. Of a row with a smaller x, x alone is read.
fn is_at_or_past(table: &[u8], row: usize, q: Pos) -> bool
    ensures { result ≡ is_at_or_past table.now q row }
{
    if row::x_of(table, row) < q.x {
        return false;
    }
    !row::pos_of(table, row).before(q)
}

fn first_at_or_past(table: &[u8], q: Pos) -> Found
    ensures { result ≡ first_at_or_past table.now q }
{
    first_index(row::rows(table), |i| is_at_or_past(table, i, q))
}

// The row that a search ended at, if it stands at the position.
pub fn if_standing(table: &[u8], q: Pos, first: Found) -> Found
    ensures { result ≡ if_standing table.now q first }
{
    let Found::At(i) = first else {
        return Found::Nothing;
    };
    if row::pos_of(table, i).same(q) {
        return Found::At(i);
    }
    Found::Nothing
}

// The first row at or past a position, if it stands there: on rows in order, the row that stands there.
pub fn find(table: &[u8], q: Pos) -> Found
    ensures { result ≡ find table.now q }
{
    if_standing(table, q, first_at_or_past(table, q))
}

pub fn find_at(table: &[u8], place: Option<Pos>) -> Found
    ensures { result ≡ find_at table.now place }
{
    match place {
        Some(q) => find(table, q),
        None => Found::Nothing,
    }
}

// The kind at a position, Air where it is empty.
pub fn kind_at(table: &[u8], q: Pos) -> u8
    ensures { result ≡ kind_at table.now q }
{
    let Found::At(i) = find(table, q) else {
        return 0;
    };
    row::kind_of(table, i)
}
