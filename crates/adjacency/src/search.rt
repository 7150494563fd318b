// Searches of a column of positions, which rises.
ghost use Rattle.std.specs.Prelude.{◌≡◌, ◌≤◌, ◌<◌, length};
ghost use Rattle.adjacency.specs.Search.{Rising, row_at, walked, Passed, Reached};

use crate::positions::HERE;
use circuit::sinks::NO_ROW;

// The first row from one on that is at a number or past it, or the row after the last.
fn advance(column: &[u64], from: usize, want: u64) -> usize
    requires { Passed column.now want from }
    ensures { Reached column.now want result }
{
    for p in from..column.len() {
        if want <= column[p] {
            return p;
        }
    }
    column.len()
}

// The same from the first row on, by halves.
fn halve(column: &[u64], want: u64) -> usize
    requires { Rising column.now }
    ensures { Reached column.now want result }
{
    column.partition_point(|position| *position < want)
}

// The row that a search ended at, if it is the number.
fn if_is(column: &[u64], want: u64, p: usize) -> u16
    requires { Reached column.now want p × (length column.now ≤ 1024) }
    ensures { result ≡ row_at column.now want }
{
    if p < column.len() {
        if column[p] == want {
            return p as u16;
        }
    }
    NO_ROW
}

// The row of a number.
pub fn row_at(column: &[u64], want: u64) -> u16
    requires { Rising column.now }
    ensures { result ≡ row_at column.now want }
{
    if_is(column, want, halve(column, want))
}

// The row at a step from each row.
pub fn walk(column: &[u64], step: u64, out: &mut [u16])
    requires { Rising column.now × (step < 9223372036854775808) × (length out.old ≡ length column.now) }
    ensures { out.new ≡ walked column.now step }
{
    let mut p = 0;
    for (i, row) in out.iter_mut().enumerate() {
        let want = column[i] + step - HERE;
        p = advance(column, p, want);
        *row = if_is(column, want, p);
    }
}
