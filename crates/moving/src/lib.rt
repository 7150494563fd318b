// A table moved by an offset.
#![tactic(auto)]

ghost use Rattle.std.specs.Prelude.{◌≡◌, true, ◌*◌, length, ℤ};
ghost use Rattle.columns.specs.First.{all_below};
ghost use Rattle.world.specs.Rows.{rows, pos_of};
ghost use Rattle.layout.specs.Good.{good_place};
ghost use Rattle.moving.specs.Move.{moved_by, pos_bytes, moved_row, moved_table, in_offset_range, good_offset, on_ground};

use columns::all_indices;
use layout::good_place;
use places::Pos;
use words::write_word;
use world::row;

fn in_offset_range(d: i32) -> bool
    ensures { result ≡ in_offset_range d }
{
    (-2000000 <= d) & (d <= 2000000)
}

fn good_offset(by: Pos) -> bool
    ensures { result ≡ good_offset by }
{
    in_offset_range(by.x) & in_offset_range(by.y) & in_offset_range(by.z)
}

// Whether every moved coordinate of a row is in range.
fn row_stays(table: &[u8], row: usize, by: Pos) -> bool
    ensures { result ≡ good_place (moved_by by (pos_of table.now row)) }
{
    good_place(row::pos_of(table, row).offset(by.x, by.y, by.z))
}

// Whether every moved coordinate is in range.
fn rows_stay(table: &[u8], by: Pos) -> bool
    ensures { result ≡ all_below (λ i. good_place (moved_by by (pos_of table.now i))) (rows table.now) }
{
    all_indices(row::rows(table), |i| row_stays(table, i, by))
}

// Whether the offset and every moved coordinate are in range.
pub fn on_ground(table: &[u8], by: Pos) -> bool
    ensures { result ≡ on_ground by table.now }
{
    if good_offset(by) {
        return rows_stay(table, by);
    }
    false
}

// Writes a position to twelve bytes.
fn write_pos(bytes: &mut [u8], q: Pos)
    requires { length bytes.old ≡ 12 }
    ensures { bytes.new ≡ pos_bytes q }
{
    write_word(bytes, 0, q.x.cast_unsigned());
    write_word(bytes, 4, q.y.cast_unsigned());
    write_word(bytes, 8, q.z.cast_unsigned());
}

// Moves one row of 32 bytes.
fn move_row(row: &mut [u8], by: Pos)
    requires { (length row.old ≡ 32) × (good_place (moved_by by (pos_of row.old 0)) ≡ true) }
    ensures { row.new ≡ moved_row by row.old }
{
    let q = row::pos_of(row, 0).offset(by.x, by.y, by.z);
    write_pos(&mut row[0..12], q);
}

// Moves every row.
pub fn move_rows(table: &mut [u8], by: Pos)
    requires { (length table.old ≡ rows table.old * 32) × (on_ground by table.old ≡ true) }
    ensures { table.new ≡ moved_table by table.old }
{
    for i in 0..row::rows(table) {
        let start = i * row::WIDTH;
        move_row(&mut table[start..start + row::WIDTH], by);
    }
}
