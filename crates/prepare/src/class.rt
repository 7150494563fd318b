// The classes of rows, before their arms are known.
ghost use Rattle.std.specs.Prelude.{◌≡◌, ◌-◌, ◌≤◌, ◌<◌, length};
ghost use Rattle.columns.specs.Column.{tabulate};
ghost use Rattle.prepare.specs.Classes.{bit, trait_bits, armless};

use blocks::torch_charges_above;
use traits::{BlockRedstoneTraits, redstone_traits};
use world::row::{facing_of, kind_of};

fn bit(value: u32, set: bool) -> u32
    ensures { (result ≡ bit value set) × (result ≤ value) }
{
    if set { value } else { 0 }
}

// A rise from 0 on: 0 None, 1 Side, 2 Up.
fn rise_bits(rise: u8) -> u32
    ensures { (result ≡ rise - 1) × (result < 256) }
{
    rise.saturating_sub(1) as u32
}

fn trait_bits(traits: BlockRedstoneTraits) -> u32
    ensures { (result ≡ trait_bits traits) × (result < 512) }
{
    rise_bits(traits.rise)
        + (bit(4, traits.blocks)
            + (bit(8, traits.weak) + (bit(16, traits.strong) + bit(32, traits.drives))))
}

fn armless(profile: &[u8], table: &[u8], row: usize) -> u32
    ensures { result ≡ armless profile.now table.now row }
{
    trait_bits(redstone_traits(profile, table, row))
        + (bit(128, torch_charges_above(profile))
            + (kind_of(table, row) as u32 * 256 + facing_of(table, row) as u32 * 65536))
}

#[tactic(auto, using(columns::proofs::Columns::fills))]
pub fn fill_armless(profile: &[u8], table: &[u8], out: &mut [u32])
    ensures { out.new ≡ tabulate (length out.old) (armless profile.now table.now) }
{
    for (i, class) in out.iter_mut().enumerate() {
        *class = armless(profile, table, i);
    }
}
