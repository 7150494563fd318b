// The arms of the dust, read off the columns.
ghost use Rattle.std.specs.Prelude.{◌≡◌, ℕ, ◌≤◌, ◌<◌, length};
ghost use Rattle.columns.specs.Column.{row};
ghost use Rattle.prepare.specs.Arms.{joins_in, rises_in, infer_in, arm_past, arm_from, arms_from, with_arms};

use blocks::kind::{is_diode, is_source};
use circuit::Network;
use circuit::sinks::{ABOVE, NO_ROW};
use classes::{blocks_in, facing_in, is_dust_in, kind_in, rise_in};
use places::Facing;
use world::row::stored_arm;

// Whether dust has an arm along the facing to a row of the class beside it.
fn joins(class: u32, facing: u8) -> bool
    ensures { result ≡ joins_in class facing }
{
    let own = facing_in(class);
    let back = Facing { code: facing }.opposite();
    let kind = kind_in(class);
    is_dust_in(class)
        | (is_source(kind)
            | (is_diode(kind) & ((own != 0) & ((own == facing) | (own == back.code)))))
}

// Whether row a beside the row has a rise and dust on top, with no blocker above the row itself.
#[tactic(auto, unfolding(crate::specs::Arms::rises_in))]
fn rises(network: Network, row: usize, a: usize) -> bool
    ensures { result ≡ rises_in network.entry.near.now network.entry.class.now row a }
{
    let top = network.class_at(network.beside(a, ABOVE));
    let over = network.class_at(network.beside(row, ABOVE));
    (rise_in(network.class_at(a)) != 0) & (is_dust_in(top) & !blocks_in(over))
}

#[tactic(auto, unfolding(crate::specs::Arms::infer_in))]
fn infer(network: Network, row: usize, facing: u8, a: usize) -> u32
    ensures { (result ≡ infer_in network.entry.near.now network.entry.class.now row facing a) × (result ≤ 3) }
{
    let own = network.class_at(a);
    if joins(own, facing) {
        return 1;
    }
    if rises(network, row, a) {
        return rise_in(own);
    }
    0
}

#[tactic(auto, unfolding(crate::specs::Arms::arm_past))]
fn arm_past(table: &[u8], network: Network, row: usize, facing: u8, a: usize) -> u32
    ensures { (result ≡ arm_past table.now network.entry.near.now network.entry.class.now row facing a) × (result ≤ 3) }
{
    let stored = stored_arm(table, row, facing);
    if stored == 0 {
        return infer(network, row, facing, a);
    }
    ((stored - 1) % 4) as u32
}

#[tactic(auto, unfolding(crate::specs::Arms::arm_from))]
fn arm_from(table: &[u8], network: Network, row: usize, facing: u8) -> u32
    requires { (1 ≤ facing) × (facing ≤ 4) }
    ensures { (result ≡ arm_from table.now network.entry.near.now network.entry.class.now row facing) × (result ≤ 3) }
{
    let a = network.beside(row, (facing - 1) as usize);
    if a == NO_ROW as usize {
        return 0;
    }
    arm_past(table, network, row, facing, a)
}

// The four arms of dust.
#[tactic(auto, unfolding(crate::specs::Arms::arms_from))]
fn arms_from(table: &[u8], network: Network, row: usize) -> u32
    ensures { (result ≡ arms_from table.now network.entry.near.now network.entry.class.now row) × (result ≤ 4278190080) }
{
    if is_dust_in(network.class_at(row)) {
        return arm_from(table, network, row, Facing::NORTH) * 16777216
            + (arm_from(table, network, row, Facing::EAST) * 67108864
                + (arm_from(table, network, row, Facing::SOUTH) * 268435456
                    + arm_from(table, network, row, Facing::WEST) * 1073741824));
    }
    0
}

// The classes with their arms.
pub fn fill_arms(table: &[u8], network: Network, out: &mut [u32])
    requires { ((i : ℕ) → row network.class.now i < 16777216) × (length out.old ≡ length network.class.now) }
    ensures { out.new ≡ with_arms table.now network.entry.near.now network.entry.class.now }
{
    for (i, class) in out.iter_mut().enumerate() {
        *class = network.class[i] + arms_from(table, network, i);
    }
}
