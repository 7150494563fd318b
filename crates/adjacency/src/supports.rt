// The rows of the supports.
ghost use Rattle.std.specs.Prelude.{◌≡◌, ◌+◌, ◌*◌, ◌≤◌, ◌<◌, length};
ghost use Rattle.world.specs.Rows.{rows};
ghost use Rattle.adjacency.specs.Adjacency.{row_by};
ghost use Rattle.adjacency.specs.Steps.{unit_of, support_step};
ghost use Rattle.adjacency.specs.Search.{Placed, column_by};

use crate::positions::{HERE, X, Y};
use crate::search::row_at;
use circuit::sinks::NO_ROW;

// A byte of an offset, counted from -1 on.
fn unit(b: u8) -> u64
    ensures { (result ≡ unit_of b) × (result < 256) }
{
    u64::from(b.wrapping_add(1))
}

// The step to the support, packed as a position is.
fn support_step(table: &[u8], row: usize) -> u64
    requires { row * 32 + 32 ≤ length table.now }
    ensures { (result ≡ support_step table.now row) × (result < 9223372036854775808) }
{
    let start = row * 32;
    unit(table[start + 20]) * X + (unit(table[start + 21]) * Y + unit(table[start + 22]))
}

fn support_at(table: &[u8], positions: &[u64], row: usize) -> u16
    requires { Placed table.now positions.now × (row < rows table.now) }
    ensures { result ≡ row_by table.now row 6 }
{
    if table[row * 32 + 19] == 1 {
        return row_at(positions, positions[row] + support_step(table, row) - HERE);
    }
    NO_ROW
}

#[tactic(auto, using(columns::proofs::Columns::fills))]
pub fn fill_supports(table: &[u8], positions: &[u64], out: &mut [u16])
    requires { Placed table.now positions.now × (length out.old ≡ rows table.now) }
    ensures { out.new ≡ column_by table.now 6 }
{
    for (i, support) in out.iter_mut().enumerate() {
        *support = support_at(table, positions, i);
    }
}
