// The two columns of a table, under a profile, in which settling finds its network.
#![tactic(auto)]

ghost use Rattle.std.specs.Prelude.{◌≡◌, ◌*◌, length};
ghost use Rattle.world.specs.Rows.{rows};
ghost use Rattle.refusals.specs.Accepted.{Table};
ghost use Rattle.classes.specs.Towards.{places};
ghost use Rattle.adjacency.specs.Adjacency.{near_of};
ghost use Rattle.prepare.specs.Classes.{classes_of};

use crate::class::fill_armless;
use crate::dust_arms::fill_arms;
use adjacency::fill_near;
use circuit::Network;
use world::row::rows;

mod class;
mod dust_arms;

// Classes before and with their arms.
fn fill_classes(profile: &[u8], table: &[u8], near: &[u16], armless: &mut [u32], class: &mut [u32])
    requires table { Table table.now × (near.now ≡ near_of table.now) }
    requires armless_len { (length armless.old ≡ rows table.now) × (length class.old ≡ rows table.now) }
    ensures { class.new ≡ classes_of profile.now table.now }
{
    fill_armless(profile, table, armless);
    fill_arms(
        table,
        Network {
            near,
            class: armless,
        },
        class,
    );
}

// Fills both columns.
pub fn prepare(profile: &[u8], table: &[u8], near: &mut [u16], class: &mut [u32])
    requires { Table table.now × (length near.old ≡ places * rows table.now) × (length class.old ≡ rows table.now) }
    ensures near { near.new ≡ near_of table.now }
    ensures class { class.new ≡ classes_of profile.now table.now }
{
    fill_near(table, near);
    let n = rows(table);
    let mut armless = [0u32; 1024];
    fill_classes(profile, table, near, &mut armless[0..n], class);
}
