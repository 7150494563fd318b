// Loops over the rows of a state. Each row's sixteen bytes are lent by themselves.
ghost use Rattle.std.specs.Prelude.{◌≡◌, ◌*◌, ◌<◌, ℕ, length, List};
ghost use Rattle.columns.specs.Column.{concat_rows, part};
ghost use Rattle.world.specs.Rows.{rows};
ghost use Rattle.refusals.specs.Accepted.{Table};
ghost use Rattle.adjacency.specs.Adjacency.{near_of};
ghost use Rattle.ports.specs.Ports.{Prepared};
ghost use Rattle.levels.specs.Numbers.{numbers};
ghost use Rattle.fresh.specs.Fresh.{fresh_row};
ghost use Rattle.updates.specs.State.{devices_of, fresh_devices};
ghost use Rattle.updates.specs.Tick.{with_devices, with_lights};

use columns::byte_at;
use devices::{device_step, light_step};
use fresh::{fresh_device, fresh_step};
use levels::{Numbers, Power};
use ports::PreparedRow;
use world::row::rows;

// The device column of a state.
#[tactic(auto, using(columns::proofs::Columns::fills, crate::proofs::Turns::device_at), unfolding(crate::specs::State::devices_of))]
pub fn fill_devices(table: &[u8], state: &[u8], devices: &mut [u8])
    requires { (length state.now ≡ rows table.now * 16) × (length devices.old ≡ rows table.now) }
    ensures { devices.new ≡ devices_of table.now state.now }
{
    for (i, device) in devices.iter_mut().enumerate() {
        *device = byte_at(state, i * 16);
    }
}

// The device column of a table that was just built.
#[tactic(auto, using(columns::proofs::Columns::fills), unfolding(crate::specs::State::fresh_devices))]
pub fn fill_fresh_devices(table: &[u8], devices: &mut [u8])
    requires { length devices.old ≡ rows table.now }
    ensures { devices.new ≡ fresh_devices table.now }
{
    for (i, device) in devices.iter_mut().enumerate() {
        *device = fresh_device(table, i);
    }
}

// Writes to the sixteen bytes of one row.
fn write_row<F: Fn(usize, &mut [u8; 16])>(row: usize, lent: &mut [u8], write: &F)
    requires whole { length lent.old ≡ 16 }
    requires callable { (r : _) → F.pre write.now row r }
    ensures { (g : List ℕ → List ℕ) → ((r r' : _) → F.post write.now row r tt r' → r'.now ≡ g r.now) → lent.new ≡ g lent.old }
{
    if let Some(sixteen) = lent.as_mut_array() {
        write(row, sixteen);
    }
}

// Writes to the sixteen bytes of each row, row after row.
fn each_row<F: Fn(usize, &mut [u8; 16])>(rows: usize, state: &mut [u8], write: F)
    requires whole { length state.old ≡ rows * 16 }
    requires callable { (i : ℕ) (r : _) → i < rows → F.pre write i r }
    ensures { (g : ℕ → List ℕ → List ℕ) → ((i : ℕ) (r r' : _) → i < rows → F.post write i r tt r' → r'.now ≡ g i r.now) → state.new ≡ concat_rows rows (λ i. g i (part 16 state.old i)) }
{
    for i in 0..rows {
        write_row(i, &mut state[i * 16..i * 16 + 16], &write);
    }
}

// Every device, from the old devices and the old settled columns.
pub fn set_devices(
    profile: &[u8],
    table: &[u8],
    near: &[u16],
    devices: &[u8],
    signal: &[u8],
    weak: &[u8],
    strong: &[u8],
    state: &mut [u8],
)
    requires { Table table.now × (near.now ≡ near_of table.now) × (length state.old ≡ rows table.now * 16) }
    ensures { state.new ≡ with_devices profile.now table.now devices.now (numbers signal.now weak.now strong.now) state.old }
{
    let numbers = Numbers {
        signal,
        power: Power { weak, strong },
    };
    each_row(
        rows(table),
        state,
        |i, sixteen|
            requires { Prepared table.now near.now i }
        {
            let at = PreparedRow {
                table,
                near,
                row: i,
            };
            device_step(profile, at, devices, numbers, sixteen);
        },
    );
}

// Every lamp and bulb, from the new settled power.
pub fn set_lights(table: &[u8], weak: &[u8], strong: &[u8], state: &mut [u8])
    requires { length state.old ≡ rows table.now * 16 }
    ensures { state.new ≡ with_lights table.now weak.now strong.now state.old }
{
    let power = Power { weak, strong };
    each_row(rows(table), state, |i, sixteen| {
        light_step(table, power, i, sixteen)
    });
}

// Every row of a table that was just built, from the settled power.
pub fn fill_fresh(table: &[u8], weak: &[u8], strong: &[u8], state: &mut [u8])
    requires { length state.old ≡ rows table.now * 16 }
    ensures { state.new ≡ concat_rows (rows table.now) (fresh_row table.now weak.now strong.now) }
{
    let power = Power { weak, strong };
    each_row(rows(table), state, |i, sixteen| {
        fresh_step(table, power, i, sixteen)
    });
}
