// The refusals of a call with a state.
ghost use Rattle.std.specs.Prelude.{◌≡◌, ◌*◌, ◌≤◌, length};
ghost use Rattle.columns.specs.First.{first_from};
ghost use Rattle.world.specs.Rows.{rows};
ghost use Rattle.updates.specs.State.{is_bad_state, check_state};
ghost use Rattle.updates.specs.Calls.{check_fresh, check_step, check_tick};

use columns::{Found, first_index};
use electrical::good_columns;
use refusals::{Checked, Refused, check_input, check_overdriven, refuse_at, refuse_unless};
use states::row::good_state;
use world::row::rows;

// The first row whose sixteen bytes are not within the layout.
fn first_bad_state(table: &[u8], state: &[u8], rows: usize) -> Found
    requires { length state.now ≡ rows * 16 }
    ensures { result ≡ first_from (is_bad_state table.now state.now) rows 0 }
{
    first_index(rows, |i| !good_state(table, i, &state[i * 16..i * 16 + 16]))
}

// Refusals 6 and 10, of a table that is not crowded: the row at fault fits its number.
#[tactic(auto, unfolding(crate::specs::State::check_state))]
fn check_state(table: &[u8], state: &[u8]) -> Checked
    requires { rows table.now ≤ 1024 }
    ensures { result ≡ check_state table.now state.now }
{
    let rows = rows(table);
    refuse_unless(Refused::BAD_STATE, state.len() == rows * 16)?;
    refuse_at(Refused::BAD_STATE, first_bad_state(table, state, rows), 0)?;
    check_overdriven(state, 16, rows)
}

// Refusals 1 to 7 and 10 of a call with a state, and output columns of these lengths.
#[tactic(auto, unfolding(crate::specs::Calls::check_step))]
pub fn check_step(
    profile: &[u8],
    table: &[u8],
    state: &[u8],
    signal: usize,
    weak: usize,
    strong: usize,
) -> Checked
    ensures { result ≡ check_step profile.now table.now state.now signal weak strong }
{
    check_input(profile, table)?;
    check_state(table, state)?;
    refuse_unless(Refused::COLUMN, good_columns(table, signal, weak, strong))
}

// And 9: the clock's last number is 4,294,967,295.
#[tactic(auto, unfolding(crate::specs::Calls::check_tick))]
pub fn check_tick(
    profile: &[u8],
    table: &[u8],
    state: &[u8],
    tick: u32,
    ticks: u32,
    signal: usize,
    weak: usize,
    strong: usize,
) -> Checked
    ensures { result ≡ check_tick profile.now table.now state.now tick ticks signal weak strong }
{
    check_step(profile, table, state, signal, weak, strong)?;
    refuse_unless(Refused::CLOCK_END, ticks <= 4294967295 - tick)
}

// Refusals 1 to 5, 7 and 10 of fresh, with a state and output columns of these lengths.
#[tactic(auto, unfolding(crate::specs::Calls::check_fresh))]
pub fn check_fresh(
    profile: &[u8],
    table: &[u8],
    state: usize,
    signal: usize,
    weak: usize,
    strong: usize,
) -> Checked
    ensures { result ≡ check_fresh profile.now table.now state signal weak strong }
{
    check_input(profile, table)?;
    let room = state == rows(table) * 16;
    refuse_unless(
        Refused::COLUMN,
        room & good_columns(table, signal, weak, strong),
    )
}
