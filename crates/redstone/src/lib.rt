// The map editor's calls. Each answers 65,536 times the number of the refusal that falls on it plus the row at fault, and then writes no byte;
// else the rounds of its settling, 1 to 17, or what its own comment says. A profile has 13 bytes or, for tables with bulbs, 14.
#![tactic(auto)]

ghost use Rattle.std.specs.Prelude.{ℤ};
ghost use Rattle.places.specs.Places.{cell};
ghost use Rattle.supports.specs.Supports.{Listed};
ghost use Rattle.merge.specs.Merge.{Merges};
ghost use Rattle.clear.specs.Clear.{Clears};
ghost use Rattle.feeders.specs.Feeds.{Feeds};
ghost use Rattle.replace.specs.Replace.{Replaces};
ghost use Rattle.redraw.specs.Redraw.{Redraws};
ghost use Rattle.electrical.specs.Answer.{Settles};
ghost use Rattle.updates.specs.Calls.{Fresh, Ticks, Switches};

use places::Pos;

// The fresh state of a table, and what it settles to.
pub fn redstone_fresh(
    profile: &[u8],
    table: &[u8],
    state: &mut [u8],
    signal: &mut [u8],
    weak: &mut [u8],
    strong: &mut [u8],
) -> u32
    ensures { Fresh profile.now table.now state.old state.new signal.old weak.old strong.old signal.new weak.new strong.new result }
{
    sim::fresh(profile, table, state, signal, weak, strong)
}

// What a table settles to with a column of devices, within a limit of rounds.
pub fn redstone_settle(
    profile: &[u8],
    table: &[u8],
    devices: &[u8],
    limit: u32,
    signal: &mut [u8],
    weak: &mut [u8],
    strong: &mut [u8],
) -> u32
    ensures { Settles profile.now table.now devices.now limit signal.old weak.old strong.old signal.new weak.new strong.new result }
{
    solver::solve_instantaneous(profile, table, devices, limit, signal, weak, strong)
}

// The state that many ticks after the tick it stands at, and what it settles to.
pub fn redstone_tick(
    profile: &[u8],
    table: &[u8],
    state: &mut [u8],
    tick: u32,
    ticks: u32,
    signal: &mut [u8],
    weak: &mut [u8],
    strong: &mut [u8],
) -> u32
    ensures { Ticks profile.now table.now state.old state.new tick ticks signal.old weak.old strong.old signal.new weak.new strong.new result }
{
    sim::tick(profile, table, state, tick, ticks, signal, weak, strong)
}

// The table with the block at a position switched, any number but 0 being on, and what it settles to. The state is read and not written.
pub fn redstone_switch(
    profile: &[u8],
    table: &mut [u8],
    state: &[u8],
    x: i32,
    y: i32,
    z: i32,
    powered: u32,
    signal: &mut [u8],
    weak: &mut [u8],
    strong: &mut [u8],
) -> u32
    ensures { Switches profile.now table.old table.new state.now state.now (cell x y z) powered signal.old weak.old strong.old signal.new weak.new strong.new result }
{
    sim::switch(
        profile, table, state, x, y, z, powered, signal, weak, strong,
    )
}

// The table with the arms of every dust drawn anew; answers 0.
pub fn redstone_redraw(profile: &[u8], table: &mut [u8]) -> u32
    ensures { Redraws profile.now table.old table.new result }
{
    redraw::update_wire_shapes(profile, table)
}

// The numbers of the rows whose support is missing or does not support components, at the front of the column, the rest of it untouched; answers how many there are.
pub fn redstone_supports(profile: &[u8], table: &[u8], rows: &mut [u16]) -> u32
    ensures { Listed profile.now table.now rows.old rows.new result }
{
    supports::support_issues(profile, table, rows)
}

// The rows of the first table and those of the second, moved by the offset, at the front of the output, in order, each shared one once, the rest of
// it untouched; answers how many rows there are. The output has 32,768 bytes. No profile is given, and rows of bulbs are good.
pub fn redstone_merge(first: &[u8], second: &[u8], dx: i32, dy: i32, dz: i32, out: &mut [u8]) -> u32
    ensures { Merges first.now second.now (cell dx dy dz) out.old out.new result }
{
    merge::merge(first, second, Pos::new(dx, dy, dz), out)
}

// The rows that are kept when every row that the support list names is removed, again and again until it names none: at the front of the output, in
// order, the rest of it untouched; and for each row of the table the pass, from 1, in which it went, or 0. Answers how many rows are kept. The output
// is as long as the table, and the column has an entry for each of its rows.
pub fn redstone_clear(profile: &[u8], table: &[u8], kept: &mut [u8], passes: &mut [u16]) -> u32
    ensures { Clears profile.now table.now kept.old kept.new passes.old passes.new result }
{
    clear::clear(profile, table, kept, passes)
}

// The feeder list of a table: for each row twelve entries, the numbers of the rows of dust that transmits into it, rising, then 65,535. Answers how many
// rows there are.
pub fn redstone_feeders(profile: &[u8], table: &[u8], list: &mut [u16]) -> u32
    ensures { Feeds profile.now table.now list.old list.new result }
{
    feeders::feeders(profile, table, list)
}

// The table with one row replaced by another at its position, and the feeder list beside it: the entries of that row and of dust at most two cells away on
// every axis written afresh, all others left as they are. Answers how many rows there are.
pub fn redstone_replace(
    profile: &[u8],
    table: &mut [u8],
    row: u16,
    new: &[u8],
    list: &mut [u16],
) -> u32
    ensures { Replaces profile.now table.old table.new row new.now list.old list.new result }
{
    replace::replace(profile, table, row, new, list)
}
