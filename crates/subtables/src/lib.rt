// Rows of a table, copied.
#![tactic(auto)]

ghost use Rattle.std.specs.Prelude.{◌≡◌, ◌+◌, ◌*◌, ◌≤◌, length};
ghost use borrow.Rule.Slice.PartMut.{put_mid};
ghost use Rattle.columns.specs.Column.{part};

use world::row;

// Copies a row of a table to 32 bytes.
pub fn copy_row(table: &[u8], row: usize, out: &mut [u8])
    requires { (row * 32 + 32 ≤ length table.now) × (length out.old ≡ 32) }
    ensures { out.new ≡ part 32 table.now row }
{
    out.copy_from_slice(row::row_in(table, row));
}

// Copies a row of a table over a row of another.
pub fn put_row(table: &[u8], row: usize, out: &mut [u8], to: usize)
    requires { (row * 32 + 32 ≤ length table.now) × (to * 32 + 32 ≤ length out.old) }
    ensures { out.new ≡ put_mid (to * 32) 32 out.old (part 32 table.now row) }
{
    let start = to * row::WIDTH;
    copy_row(table, row, &mut out[start..start + row::WIDTH]);
}
