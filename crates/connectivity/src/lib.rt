// The sides of a device: where a repeater or comparator reads and writes, and the two positions across its facing.
#![tactic(auto)]

ghost use Rattle.std.specs.Prelude.{◌≡◌, ℕ, Option, None};
ghost use Rattle.places.specs.declared.Pos.{Pos};
ghost use Rattle.columns.specs.First.{on_found};
ghost use Rattle.connectivity.specs.Ports.{ahead, output_of, input_of, across, sides_of, of_kind, repeater_input_pos, repeater_output_pos, comparator_input_pos, comparator_output_pos, device_side_positions};

use columns::Found;
use places::{Facing, Pos};
use world::find::find;
use world::row::{facing_of, kind_of, pos_of};

// The place beside along a horizontal facing; none along any other.
fn ahead(q: Pos, facing: Facing) -> Option<Pos>
    ensures { result ≡ ahead q facing.code }
{
    let code = facing.code;
    if code < Facing::NORTH {
        return None;
    }
    if Facing::WEST < code {
        return None;
    }
    Some(q.beside(facing))
}

// The output of a row that is taken for a device, whatever its kind.
pub fn output_of(table: &[u8], row: usize) -> Option<Pos>
    ensures { result ≡ output_of table.now row }
{
    let facing = Facing {
        code: facing_of(table, row),
    };
    ahead(pos_of(table, row), facing)
}

pub fn input_of(table: &[u8], row: usize) -> Option<Pos>
    ensures { result ≡ input_of table.now row }
{
    let facing = Facing {
        code: facing_of(table, row),
    };
    let back = facing.opposite();
    ahead(pos_of(table, row), back)
}

// East then West of a block that faces North or South, North then South of one that faces East or West.
fn across(q: Pos, facing: u8) -> Option<(Pos, Pos)>
    ensures { result ≡ across q facing }
{
    match facing {
        Facing::NORTH | Facing::SOUTH => Some((
            q.beside(Facing { code: Facing::EAST }),
            q.beside(Facing { code: Facing::WEST }),
        )),
        Facing::EAST | Facing::WEST => Some((
            q.beside(Facing {
                code: Facing::NORTH,
            }),
            q.beside(Facing {
                code: Facing::SOUTH,
            }),
        )),
        _ => None,
    }
}

pub fn sides_of(table: &[u8], row: usize) -> Option<(Pos, Pos)>
    ensures { result ≡ sides_of table.now row }
{
    across(pos_of(table, row), facing_of(table, row))
}

// The row that stands at a position, if it is of the kind.
fn of_kind(table: &[u8], pos: Pos, kind: u8) -> Found
    ensures { result ≡ of_kind table.now pos kind }
{
    let Found::At(i) = find(table, pos) else {
        return Found::Nothing;
    };
    if kind_of(table, i) == kind {
        return Found::At(i);
    }
    Found::Nothing
}

// The place by the row found, if there is one.
fn at_found<F: Fn(usize) -> Option<Pos>>(found: Found, place: F) -> Option<Pos>
    requires { (i : ℕ) → F.pre place i }
    ensures { (f : ℕ → Option Pos) → ((i : ℕ) (q : Option Pos) → F.post place i q → q ≡ f i) → result ≡ on_found f None found }
{
    match found {
        Found::At(i) => place(i),
        Found::Nothing => None,
    }
}

pub fn repeater_input_pos(table: &[u8], pos: Pos) -> Option<Pos>
    ensures { result ≡ repeater_input_pos table.now pos }
{
    at_found(
        of_kind(table, pos, blocks::kind::REPEATER),
        |i| input_of(table, i),
    )
}

pub fn repeater_output_pos(table: &[u8], pos: Pos) -> Option<Pos>
    ensures { result ≡ repeater_output_pos table.now pos }
{
    at_found(
        of_kind(table, pos, blocks::kind::REPEATER),
        |i| output_of(table, i),
    )
}

pub fn comparator_input_pos(table: &[u8], pos: Pos) -> Option<Pos>
    ensures { result ≡ comparator_input_pos table.now pos }
{
    at_found(
        of_kind(table, pos, blocks::kind::COMPARATOR),
        |i| input_of(table, i),
    )
}

pub fn comparator_output_pos(table: &[u8], pos: Pos) -> Option<Pos>
    ensures { result ≡ comparator_output_pos table.now pos }
{
    at_found(
        of_kind(table, pos, blocks::kind::COMPARATOR),
        |i| output_of(table, i),
    )
}

// Of a block of any kind that has a horizontal facing.
pub fn device_side_positions(table: &[u8], pos: Pos) -> Option<(Pos, Pos)>
    ensures { result ≡ device_side_positions table.now pos }
{
    let Found::At(i) = find(table, pos) else {
        return None;
    };
    sides_of(table, i)
}
