// The tick simulator: `RedstoneTickSimulator`, over a state of sixteen bytes a row. The calls check all that they are given before they
// write anything.
#![tactic(auto)]

ghost use Rattle.places.specs.Places.{cell};
ghost use Rattle.updates.specs.Calls.{Fresh, Ticks, Switches};

use places::Pos;
use updates::check;
use world::row::rows;

// `new`: fills the state of a table that was just built, and the columns that it settles to.
pub fn fresh(
    profile: &[u8],
    table: &[u8],
    state: &mut [u8],
    signal: &mut [u8],
    weak: &mut [u8],
    strong: &mut [u8],
) -> u32
    ensures { Fresh profile.now table.now state.old state.new signal.old weak.old strong.old signal.new weak.new strong.new result }
{
    let checked = check::check_fresh(
        profile,
        table,
        state.len(),
        signal.len(),
        weak.len(),
        strong.len(),
    );
    if let Err(refused) = checked {
        return refused.answer();
    }
    let mut devices = [0u8; 1024];
    let n = rows(table);
    running::new_state(
        profile,
        table,
        state,
        &mut devices[..n],
        signal,
        weak,
        strong,
    )
}

// `settle_ticks`: so many ticks from the state, which stands at the tick number given; the columns are those of the last settling.
pub fn tick(
    profile: &[u8],
    table: &[u8],
    state: &mut [u8],
    tick: u32,
    ticks: u32,
    signal: &mut [u8],
    weak: &mut [u8],
    strong: &mut [u8],
) -> u32
    ensures { Ticks profile.now table.now state.old state.new tick ticks signal.old weak.old strong.old signal.new weak.new strong.new result }
{
    let checked = check::check_tick(
        profile,
        table,
        state,
        tick,
        ticks,
        signal.len(),
        weak.len(),
        strong.len(),
    );
    if let Err(refused) = checked {
        return refused.answer();
    }
    let mut devices = [0u8; 1024];
    let n = rows(table);
    running::settle_ticks(
        profile,
        table,
        ticks,
        state,
        &mut devices[..n],
        signal,
        weak,
        strong,
    )
}

// `set_powered`: any number but 0 is true.
pub fn switch(
    profile: &[u8],
    table: &mut [u8],
    state: &[u8],
    x: i32,
    y: i32,
    z: i32,
    powered: u32,
    signal: &mut [u8],
    weak: &mut [u8],
    strong: &mut [u8],
) -> u32
    ensures { Switches profile.now table.old table.new state.now state.now (cell x y z) powered signal.old weak.old strong.old signal.new weak.new strong.new result }
{
    let checked = check::check_step(
        profile,
        table,
        state,
        signal.len(),
        weak.len(),
        strong.len(),
    );
    if let Err(refused) = checked {
        return refused.answer();
    }
    switching::set_powered(table, Pos::new(x, y, z), powered);
    let mut devices = [0u8; 1024];
    let n = rows(table);
    running::settle_state(
        profile,
        table,
        state,
        &mut devices[..n],
        signal,
        weak,
        strong,
    )
}
