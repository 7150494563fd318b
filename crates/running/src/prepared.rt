// What the calls do over the prepared columns of the table.
ghost use Rattle.std.specs.Prelude.{◌≡◌, ◌*◌, length};
ghost use Rattle.world.specs.Rows.{rows as rows_of};
ghost use Rattle.refusals.specs.Check.{IsAccepted};
ghost use Rattle.electrical.specs.Answer.{rounds_of};
ghost use Rattle.prepare.specs.Classes.{Prepared};
ghost use Rattle.updates.specs.State.{devices_of, IsValidState, fresh_devices, fresh_state};
ghost use Rattle.updates.specs.Tick.{tick, ticks};
ghost use Rattle.running.specs.Running.{ColumnLengths, Ready, HoldsSettled, Settled};

use circuit::Network;
use emitted::output::fill_emitted;
use updates::state::{fill_devices, fill_fresh, fill_fresh_devices, set_devices, set_lights};
use world::row::rows;

// Settles the devices, over the prepared columns of the table. The profile is what the contract speaks of.
fn settle(
    profile: &[u8],
    table: &[u8],
    network: Network,
    devices: &[u8],
    signal: &mut [u8],
    weak: &mut [u8],
    strong: &mut [u8],
) -> u32
    requires { IsAccepted profile.now table.now × ColumnLengths table.now devices.now signal.old weak.old strong.old × Prepared profile.now table.now network.near.now network.class.now }
    ensures rounds { result ≡ rounds_of profile.now table.now devices.now }
    ensures columns { HoldsSettled profile.now table.now devices.now signal.new weak.new strong.new }
{
    let n = rows(table);
    let mut emitted = [0u8; 1024];
    let emitted = &mut emitted[..n];
    fill_emitted(table, devices, emitted);
    keys::settle::settle(network, emitted, signal, weak, strong)
}

// `settle_instantaneous`: settles the devices of a state.
pub fn settle_state(
    profile: &[u8],
    table: &[u8],
    network: Network,
    state: &[u8],
    devices: &mut [u8],
    signal: &mut [u8],
    weak: &mut [u8],
    strong: &mut [u8],
) -> u32
    requires { Ready profile.now table.now state.now × ColumnLengths table.now devices.old signal.old weak.old strong.old × Prepared profile.now table.now network.near.now network.class.now }
    ensures rounds { result ≡ rounds_of profile.now table.now (devices_of table.now state.now) }
    ensures columns { Settled profile.now table.now state.now devices.new signal.new weak.new strong.new }
{
    fill_devices(table, state, devices);
    settle(profile, table, network, devices, signal, weak, strong)
}

// One tick, from a settled state to the next settled one: devices from the old devices and columns, then the columns, then lamps and bulbs from these.
fn advance_tick(
    profile: &[u8],
    table: &[u8],
    network: Network,
    state: &mut [u8],
    devices: &mut [u8],
    signal: &mut [u8],
    weak: &mut [u8],
    strong: &mut [u8],
) -> u32
    requires accepted { IsAccepted profile.now table.now × IsValidState table.now state.old × Prepared profile.now table.now network.near.now network.class.now }
    requires column_lengths { ColumnLengths table.now devices.old signal.old weak.old strong.old × Settled profile.now table.now state.old devices.old signal.old weak.old strong.old }
    ensures next { state.new ≡ tick profile.now table.now state.old }
    ensures rounds { result ≡ rounds_of profile.now table.now (devices_of table.now state.new) }
    ensures columns { Settled profile.now table.now state.new devices.new signal.new weak.new strong.new }
{
    set_devices(
        profile,
        table,
        network.near,
        devices,
        signal,
        weak,
        strong,
        state,
    );
    let rounds = settle_state(
        profile, table, network, state, devices, signal, weak, strong,
    );
    set_lights(table, weak, strong, state);
    rounds
}

// So many ticks. The state keeps no columns, so that it is settled once before the first.
pub fn settle_ticks(
    profile: &[u8],
    table: &[u8],
    network: Network,
    count: u32,
    state: &mut [u8],
    devices: &mut [u8],
    signal: &mut [u8],
    weak: &mut [u8],
    strong: &mut [u8],
) -> u32
    requires { IsAccepted profile.now table.now × IsValidState table.now state.old × ColumnLengths table.now devices.old signal.old weak.old strong.old × Prepared profile.now table.now network.near.now network.class.now }
    ensures next { state.new ≡ ticks count profile.now table.now state.old }
    ensures rounds { result ≡ rounds_of profile.now table.now (devices_of table.now state.new) }
    ensures columns { Settled profile.now table.now state.new devices.new signal.new weak.new strong.new }
{
    let mut rounds = settle_state(
        profile, table, network, state, devices, signal, weak, strong,
    );
    for _done in 0..count {
        rounds = advance_tick(
            profile, table, network, state, devices, signal, weak, strong,
        );
    }
    rounds
}

// The state of a table that was just built.
pub fn new_state(
    profile: &[u8],
    table: &[u8],
    network: Network,
    state: &mut [u8],
    devices: &mut [u8],
    signal: &mut [u8],
    weak: &mut [u8],
    strong: &mut [u8],
) -> u32
    requires { IsAccepted profile.now table.now × (length state.old ≡ rows_of table.now * 16) × ColumnLengths table.now devices.old signal.old weak.old strong.old × Prepared profile.now table.now network.near.now network.class.now }
    ensures next { state.new ≡ fresh_state profile.now table.now }
    ensures rounds { result ≡ rounds_of profile.now table.now (fresh_devices table.now) }
    ensures columns { HoldsSettled profile.now table.now (fresh_devices table.now) signal.new weak.new strong.new }
{
    fill_fresh_devices(table, devices);
    let rounds = settle(profile, table, network, devices, signal, weak, strong);
    fill_fresh(table, weak, strong, state);
    rounds
}
