// Whether settle and fresh answer and write as the original did. Each function takes a record of its operation, makes the call that it tells of,
// and compares the answer and every byte of every buffer with the recorded ones.
#![tactic(auto)]

ghost use Rattle.std.specs.Prelude.{◌≡◌};
ghost use Rattle.calls.specs.Calls.{blanks, settle_right, fresh_right};

use columns::same;
use records::{columns_agree, number, slice_of, well_formed};
use world::row::rows;

// What every byte of a buffer that a call is to fill is before it.
pub const BLANK: u8 = 195;

// Three columns for a call to fill, which is lent an entry of each for every row.
pub fn blank_columns() -> ([u8; 64], [u8; 64], [u8; 64])
    ensures signal { result.0 ≡ blanks 64 }
    ensures weak { result.1 ≡ blanks 64 }
    ensures strong { result.2 ≡ blanks 64 }
{
    ([BLANK; 64], [BLANK; 64], [BLANK; 64])
}

// Settling with a column of devices, within a limit of rounds.
pub fn settle_right(r: &[u8]) -> bool
    ensures { result ≡ settle_right r.now }
{
    if well_formed(r, 6, 8) {
        let n = rows(slice_of(r, 1));
        let (mut signal, mut weak, mut strong) = blank_columns();
        let answered = redstone::redstone_settle(
            slice_of(r, 0),
            slice_of(r, 1),
            slice_of(r, 2),
            number(r, 6, 0),
            &mut signal[..n],
            &mut weak[..n],
            &mut strong[..n],
        );
        return (answered == number(r, 6, 4))
            & columns_agree(r, 3, 4, 5, &signal[..n], &weak[..n], &strong[..n]);
    }
    false
}

// The fresh state of a table.
pub fn fresh_right(r: &[u8]) -> bool
    ensures { result ≡ fresh_right r.now }
{
    if well_formed(r, 6, 4) {
        let n = rows(slice_of(r, 1));
        let mut state = [BLANK; 1024];
        let (mut signal, mut weak, mut strong) = blank_columns();
        let answered = redstone::redstone_fresh(
            slice_of(r, 0),
            slice_of(r, 1),
            &mut state[..n * 16],
            &mut signal[..n],
            &mut weak[..n],
            &mut strong[..n],
        );
        return (answered == number(r, 6, 0))
            & (same(&state[..n * 16], slice_of(r, 2))
                & columns_agree(r, 3, 4, 5, &signal[..n], &weak[..n], &strong[..n]));
    }
    false
}
