// Whether tick and switch answer and write as the original did, as `calls` says it of settle and fresh.
#![tactic(auto)]

ghost use Rattle.std.specs.Prelude.{◌≡◌, ℤ};
ghost use Rattle.calls.specs.Calls.{well_formed_ticks, ticks_in, ticks_right, switch_in, switch_right};

use calls::blank_columns;
use columns::same;
use records::{MOST_BYTES, after, columns_agree, copied, number, pos_at, slice_of, well_formed};
use world::row::rows;

// The most ticks that a record asks for.
const MOST_TICKS: u32 = 1000;

// Whether a record of ticks is well formed, and asks for no more of them than the most.
fn well_formed_ticks(r: &[u8]) -> bool
    ensures { result ≡ well_formed_ticks r.now }
{
    well_formed(r, 7, 12) & ((slice_of(r, 2).len() <= MOST_BYTES) & (number(r, 7, 4) <= MOST_TICKS))
}

// Makes the ticks from this state, and compares.
fn ticks_in(
    r: &[u8],
    state: &mut [u8],
    signal: &mut [u8],
    weak: &mut [u8],
    strong: &mut [u8],
) -> bool
    ensures { result ≡ ticks_in r.now state.old signal.old weak.old strong.old }
{
    let answered = redstone::redstone_tick(
        slice_of(r, 0),
        slice_of(r, 1),
        state,
        number(r, 7, 0),
        number(r, 7, 4),
        signal,
        weak,
        strong,
    );
    (answered == number(r, 7, 8))
        & (same(state, slice_of(r, 3)) & columns_agree(r, 4, 5, 6, signal, weak, strong))
}

// So many ticks from a state.
pub fn ticks_right(r: &[u8]) -> bool
    ensures { result ≡ ticks_right r.now }
{
    if well_formed_ticks(r) {
        let n = rows(slice_of(r, 1));
        let before = slice_of(r, 2);
        let bytes = before.len();
        let mut state = copied(before);
        let (mut signal, mut weak, mut strong) = blank_columns();
        return ticks_in(
            r,
            &mut state[..bytes],
            &mut signal[..n],
            &mut weak[..n],
            &mut strong[..n],
        );
    }
    false
}

// Throws the switch in this table, and compares.
fn switch_in(
    r: &[u8],
    table: &mut [u8],
    signal: &mut [u8],
    weak: &mut [u8],
    strong: &mut [u8],
) -> bool
    ensures { result ≡ switch_in r.now table.old signal.old weak.old strong.old }
{
    let q = pos_at(after(r, 7), 0);
    let answered = redstone::redstone_switch(
        slice_of(r, 0),
        table,
        slice_of(r, 3),
        q.x,
        q.y,
        q.z,
        number(r, 7, 12),
        signal,
        weak,
        strong,
    );
    (answered == number(r, 7, 16))
        & (same(table, slice_of(r, 2)) & columns_agree(r, 4, 5, 6, signal, weak, strong))
}

// A switch at a position.
pub fn switch_right(r: &[u8]) -> bool
    ensures { result ≡ switch_right r.now }
{
    if well_formed(r, 7, 20) {
        let before = slice_of(r, 1);
        let bytes = before.len();
        let n = rows(before);
        let mut table = copied(before);
        let (mut signal, mut weak, mut strong) = blank_columns();
        return switch_in(
            r,
            &mut table[..bytes],
            &mut signal[..n],
            &mut weak[..n],
            &mut strong[..n],
        );
    }
    false
}
