// Searches of the keys for those above one bound and at most another.
ghost use Rattle.std.specs.Prelude.{◌≡◌, ◌≤◌, length};
ghost use Rattle.keys.specs.Search.{is_within, any_within, Skipped, Reached};

// So many rows are looked at together: in a larger block the row that is looked for takes longer to find.
const BLOCK: usize = 16;

fn is_within(key: u8, low: u8, high: u8) -> bool
    ensures { result ≡ is_within low high key }
{
    (low < key) & (key <= high)
}

// Whether any row from one on, before another, has a key between the bounds. The loop has no early end, so that it is compiled to look at many keys at
// once.
fn any_within(keys: &[u8], from: usize, to: usize, low: u8, high: u8) -> bool
    requires { (from ≤ to) × (to ≤ length keys.now) }
    ensures { result ≡ any_within keys.now low high from to }
{
    let mut any = false;
    for i in from..to {
        any = any | is_within(keys[i], low, high);
    }
    any
}

// Passes over the blocks from a row on that have no key between the bounds.
fn skip_blocks(keys: &[u8], from: usize, low: u8, high: u8) -> usize
    requires { from ≤ length keys.now }
    ensures { Skipped keys.now low high from result }
{
    let mut p = from;
    // By the row where a block begins, which is the answer.
    while p + BLOCK <= keys.len() {
        if any_within(keys, p, p + BLOCK, low, high) {
            return p;
        }
        p += BLOCK;
    }
    p
}

// The first row from one on with a key between the bounds, or the row after the last.
pub fn next_within(keys: &[u8], from: usize, low: u8, high: u8) -> usize
    requires { from ≤ length keys.now }
    ensures { Reached keys.now low high from result }
{
    for p in skip_blocks(keys, from, low, high)..keys.len() {
        if is_within(keys[p], low, high) {
            return p;
        }
    }
    keys.len()
}
