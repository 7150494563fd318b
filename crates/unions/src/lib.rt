// The walk along the rows of two tables, in order: each step takes a row of one of them, or of both where they stand at one position.
#![tactic(auto)]

ghost use Rattle.std.specs.Prelude.{◌≡◌, ◌+◌, ◌-◌, ◌*◌, ◌≤◌, length};
ghost use Rattle.std.specs.Iterator.{at_most};
ghost use Rattle.columns.specs.Column.{part, same as sameBytes, at_front};
ghost use Rattle.world.specs.Rows.{rows};
ghost use Rattle.refusals.specs.Accepted.{Table};
ghost use Rattle.unions.specs.Union.{rows_of, joined, union_rows, counted};
ghost use Rattle.unions.specs.Walk.{in_first, in_second, next_of, clash_at, next_row, Within, OnWay, Steps};

use columns::same;
use subtables::copy_row;
use world::row;

// The next row, by its number in the tables that have it.
#[derive(Clone, Copy)]
enum Next {
    First(usize),
    Second(usize),
    Both(usize, usize),
}

impl Next {
    fn in_first(self) -> bool
        ensures { result ≡ in_first self }
    {
        !matches!(self, Next::Second(_))
    }

    fn in_second(self) -> bool
        ensures { result ≡ in_second self }
    {
        !matches!(self, Next::First(_))
    }
}

// The walk past i rows of the first and j of the second.
#[derive(Drop)]
struct Walk<'a> {
    first: &'a [u8],
    i: usize,
    second: &'a [u8],
    j: usize,
}

impl<'a> Walk<'a> {
    fn new(first: &'a [u8], second: &'a [u8]) -> Self
        ensures { (result.first.now ≡ first.now) × (result.i ≡ 0) × (result.second.now ≡ second.now) × (result.j ≡ 0) }
    {
        Self {
            first,
            i: 0,
            second,
            j: 0,
        }
    }
}

impl<'a> Iterator for Walk<'a> {
    type Item = Next;

    ghost can_next = { OnWay };

    ghost next_gives = { Steps };

    ghost remaining = { λ s. at_most (rows s.first.now + rows s.second.now - (s.i + s.j)) };

    fn next(&mut self) -> Option<Next> {
        if self.i == row::rows(self.first) && self.j == row::rows(self.second) {
            return None;
        }
        let next = next_row(self.first, self.i, self.second, self.j);
        self.i += usize::from(next.in_first());
        self.j += usize::from(next.in_second());
        Some(next)
    }
}

// The next row, where rows are left from these on.
#[tactic(auto, unfolding(crate::specs::Walk::next_of))]
fn next_row(first: &[u8], i: usize, second: &[u8], j: usize) -> Next
    ensures { result ≡ next_of first.now i second.now j }
{
    if i == row::rows(first) {
        return Next::Second(j);
    }
    if j == row::rows(second) {
        return Next::First(i);
    }
    let p = row::pos_of(first, i);
    let q = row::pos_of(second, j);
    if p.before(q) {
        Next::First(i)
    } else if q.before(p) {
        Next::Second(j)
    } else {
        Next::Both(i, j)
    }
}

// Whether two rows are the same, byte for byte.
fn same_rows(first: &[u8], i: usize, second: &[u8], j: usize) -> bool
    requires { (i * 32 + 32 ≤ length first.now) × (j * 32 + 32 ≤ length second.now) }
    ensures { result ≡ sameBytes (part 32 first.now i) (part 32 second.now j) }
{
    same(row::row_in(first, i), row::row_in(second, j))
}

// Whether both tables have the row and it differs.
fn clash_at(first: &[u8], second: &[u8], next: Next) -> bool
    requires { Within first.now second.now next }
    ensures { result ≡ clash_at first.now second.now next }
{
    match next {
        Next::Both(i, j) => !same_rows(first, i, second, j),
        _ => false,
    }
}

// Counts the rows of both, each shared one once; None where they clash.
pub fn count_rows(first: &[u8], second: &[u8]) -> Option<usize>
    requires { Table first.now × Table second.now }
    ensures { result ≡ counted (rows_of first.now) (rows_of second.now) }
{
    let mut count = 0;
    for next in Walk::new(first, second) {
        if clash_at(first, second, next) {
            return None;
        }
        count += 1;
    }
    Some(count)
}

// Copies the next row to 32 bytes.
fn copy_next(first: &[u8], second: &[u8], next: Next, out: &mut [u8])
    requires within { Within first.now second.now next }
    requires out_len { length out.old ≡ 32 }
    ensures { out.new ≡ next_row first.now second.now next }
{
    match next {
        Next::First(i) | Next::Both(i, _) => copy_row(first, i, out),
        Next::Second(j) => copy_row(second, j, out),
    }
}

// Writes the rows of both to the front of the output, in order, each shared one once.
pub fn write_rows(first: &[u8], second: &[u8], out: &mut [u8])
    requires table { Table first.now × Table second.now }
    requires second_in_bounds { length (union_rows (rows_of first.now) (rows_of second.now)) * 32 ≤ length out.old }
    ensures { out.new ≡ at_front (joined (union_rows (rows_of first.now) (rows_of second.now))) out.old }
{
    let mut count = 0;
    for next in Walk::new(first, second) {
        let start = count * row::WIDTH;
        copy_next(first, second, next, &mut out[start..start + row::WIDTH]);
        count += 1;
    }
}
