// A switch: what a player turns on and off.
#![tactic(auto)]

ghost use Rattle.std.specs.Prelude.{◌≡◌, cond, eqb};
ghost use Rattle.switching.specs.Switch.{switched};

use columns::Found;
use places::Pos;
use world::row;

// What byte 14 says of a number.
fn powered_byte(powered: u32) -> u8
    ensures { result ≡ cond (eqb powered 0) 1 2 }
{
    if powered == 0 { 1 } else { 2 }
}

// Byte 14 of the row at the position; nothing where it is empty.
#[tactic(auto, unfolding(crate::specs::Switch::switched))]
pub fn set_powered(table: &mut [u8], q: Pos, powered: u32)
    ensures { table.new ≡ switched table.old q powered }
{
    if let Found::At(i) = world::find::find(table, q) {
        table[i * row::WIDTH + 14] = powered_byte(powered);
    }
}
