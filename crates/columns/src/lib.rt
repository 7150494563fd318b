// What every crate above shares: a byte of a slice, whether two slices are the same, a copy of one, a column of one number, the larger of two levels, and
// the answer of a search.
#![tactic(auto)]

ghost use Rattle.std.specs.Prelude.{◌≡◌, ◌<◌, ℕ, Bool, max, length, get_or};
ghost use Rattle.columns.specs.Column.{tabulate, same};
ghost use Rattle.columns.specs.First.{first_from, all_below};

// The answer of a search: an index, or nothing. An enum of its own and no Option, as document 01 asks of the look-up.
#[derive(Clone, Copy)]
pub enum Found {
    At(usize),
    Nothing,
}

// The byte at an index, 0 past the end.
pub fn byte_at(s: &[u8], at: usize) -> u8
    ensures { result ≡ get_or s.now at 0 }
{
    s.get(at).copied().unwrap_or(0)
}

pub fn larger(x: u8, y: u8) -> u8
    ensures { result ≡ max x y }
{
    x.max(y)
}

// Whether two slices hold the same bytes.
pub fn same(a: &[u8], b: &[u8]) -> bool
    ensures { result ≡ same a.now b.now }
{
    a == b
}

// Copies a slice to one that is as long.
pub fn copy(from: &[u8], to: &mut [u8])
    requires { length from.now ≡ length to.old }
    ensures { to.new ≡ from.now }
{
    to.copy_from_slice(from);
}

// Writes one number to every entry of a column.
pub fn fill(column: &mut [u16], number: u16)
    ensures { column.new ≡ tabulate (length column.old) (λ _. number) }
{
    column.fill(number);
}

// Writes 0 to every byte.
pub fn zeros(bytes: &mut [u8])
    ensures { bytes.new ≡ tabulate (length bytes.old) (λ _. 0) }
{
    bytes.fill(0);
}

// The first of n numbers, from 0 on, at which the test holds.
pub fn first_index<F: Fn(usize) -> bool>(n: usize, test: F) -> Found
    requires { (i : ℕ) → i < n → F.pre test i }
    ensures { (f : ℕ → Bool) → ((i : ℕ) (b : Bool) → i < n → F.post test i b → b ≡ f i) → result ≡ first_from f n 0 }
{
    for i in 0..n {
        if test(i) {
            return Found::At(i);
        }
    }
    Found::Nothing
}

// Whether the test holds at each of n numbers, from 0 on.
pub fn all_indices<F: Fn(usize) -> bool>(n: usize, test: F) -> bool
    requires { (i : ℕ) → i < n → F.pre test i }
    ensures { (f : ℕ → Bool) → ((i : ℕ) (b : Bool) → i < n → F.post test i b → b ≡ f i) → result ≡ all_below f n }
{
    for i in 0..n {
        if !test(i) {
            return false;
        }
    }
    true
}
