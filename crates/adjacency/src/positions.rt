// The positions of a table's rows as numbers that rise.
ghost use Rattle.std.specs.Prelude.{◌≡◌, true, ◌+◌, ◌*◌, ◌≤◌, ◌<◌, length};
ghost use Rattle.places.specs.Signed.{signed32};
ghost use Rattle.world.specs.Rows.{rows, word_of, pos_of};
ghost use Rattle.layout.specs.Good.{in_range};
ghost use Rattle.refusals.specs.Accepted.{Table};
ghost use Rattle.adjacency.specs.Adjacency.{biased, packed, positions_of};

// One cell along x and along y; along z it is 1.
pub const X: u64 = 4398046511104;

pub const Y: u64 = 2097152;

// No step, packed as a position is, each coordinate counted from -1 on.
pub const HERE: u64 = X + Y + 1;

// The four bytes from byte b on of a row that the table has, low byte first.
fn word_of(table: &[u8], row: usize, b: usize) -> u32
    requires { (row * 32 + 32 ≤ length table.now) × (b < 29) }
    ensures { result ≡ word_of table.now row b }
{
    let start = row * 32;
    u32::from_le_bytes([
        table[start + b],
        table[start + (b + 1)],
        table[start + (b + 2)],
        table[start + (b + 3)],
    ])
}

// A coordinate, counted from -1,000,001 on.
fn biased(word: u32) -> u64
    requires { in_range (signed32 word) ≡ true }
    ensures { (result ≡ biased (signed32 word)) × (result ≤ 2000001) }
{
    (u64::from(word) + 1000001) % 4294967296
}

fn packed_at(table: &[u8], row: usize) -> u64
    requires { Table table.now × (row < rows table.now) }
    ensures { result ≡ packed (pos_of table.now row) }
{
    biased(word_of(table, row, 0)) * X
        + (biased(word_of(table, row, 4)) * Y + biased(word_of(table, row, 8)))
}

#[tactic(auto, using(columns::proofs::Columns::fills), unfolding(crate::specs::Adjacency::positions_of))]
pub fn fill_positions(table: &[u8], out: &mut [u64])
    requires { Table table.now × (length out.old ≡ rows table.now) }
    ensures { out.new ≡ positions_of table.now }
{
    for (i, position) in out.iter_mut().enumerate() {
        *position = packed_at(table, i);
    }
}
