// What the calls do once their checks have passed: the rows beside each row and the classes are prepared once a call.
#![tactic(auto)]

mod prepared;

ghost use Rattle.std.specs.Prelude.{◌≡◌, ◌*◌, length};
ghost use Rattle.world.specs.Rows.{rows as rows_of};
ghost use Rattle.refusals.specs.Check.{IsAccepted};
ghost use Rattle.electrical.specs.Answer.{rounds_of};
ghost use Rattle.updates.specs.State.{devices_of, IsValidState, fresh_devices, fresh_state};
ghost use Rattle.updates.specs.Tick.{ticks};
ghost use Rattle.running.specs.Running.{ColumnLengths, Ready, HoldsSettled, Settled};

use circuit::Network;
use prepare::prepare;
use world::row::rows;

// `settle_instantaneous`: settles the devices of a state.
pub fn settle_state(
    profile: &[u8],
    table: &[u8],
    state: &[u8],
    devices: &mut [u8],
    signal: &mut [u8],
    weak: &mut [u8],
    strong: &mut [u8],
) -> u32
    requires { Ready profile.now table.now state.now × ColumnLengths table.now devices.old signal.old weak.old strong.old }
    ensures rounds { result ≡ rounds_of profile.now table.now (devices_of table.now state.now) }
    ensures columns { Settled profile.now table.now state.now devices.new signal.new weak.new strong.new }
{
    let n = rows(table);
    let mut near = [0u16; 7168];
    let mut class = [0u32; 1024];
    let near = &mut near[..n * 7];
    let class = &mut class[..n];
    prepare(profile, table, near, class);
    let network = Network { near, class };
    prepared::settle_state(
        profile, table, network, state, devices, signal, weak, strong,
    )
}

// So many ticks. The state keeps no columns, so that it is settled once before the first.
pub fn settle_ticks(
    profile: &[u8],
    table: &[u8],
    count: u32,
    state: &mut [u8],
    devices: &mut [u8],
    signal: &mut [u8],
    weak: &mut [u8],
    strong: &mut [u8],
) -> u32
    requires { IsAccepted profile.now table.now × IsValidState table.now state.old × ColumnLengths table.now devices.old signal.old weak.old strong.old }
    ensures next { state.new ≡ ticks count profile.now table.now state.old }
    ensures rounds { result ≡ rounds_of profile.now table.now (devices_of table.now state.new) }
    ensures columns { Settled profile.now table.now state.new devices.new signal.new weak.new strong.new }
{
    let n = rows(table);
    let mut near = [0u16; 7168];
    let mut class = [0u32; 1024];
    let near = &mut near[..n * 7];
    let class = &mut class[..n];
    prepare(profile, table, near, class);
    let network = Network { near, class };
    prepared::settle_ticks(
        profile, table, network, count, state, devices, signal, weak, strong,
    )
}

// The state of a table that was just built.
pub fn new_state(
    profile: &[u8],
    table: &[u8],
    state: &mut [u8],
    devices: &mut [u8],
    signal: &mut [u8],
    weak: &mut [u8],
    strong: &mut [u8],
) -> u32
    requires { IsAccepted profile.now table.now × (length state.old ≡ rows_of table.now * 16) × ColumnLengths table.now devices.old signal.old weak.old strong.old }
    ensures next { state.new ≡ fresh_state profile.now table.now }
    ensures rounds { result ≡ rounds_of profile.now table.now (fresh_devices table.now) }
    ensures columns { HoldsSettled profile.now table.now (fresh_devices table.now) signal.new weak.new strong.new }
{
    let n = rows(table);
    let mut near = [0u16; 7168];
    let mut class = [0u32; 1024];
    let near = &mut near[..n * 7];
    let class = &mut class[..n];
    prepare(profile, table, near, class);
    let network = Network { near, class };
    prepared::new_state(
        profile, table, network, state, devices, signal, weak, strong,
    )
}
