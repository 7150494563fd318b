// The fields of a row: 32 bytes a row, each field by its name. What lies past the table's end is 0.
ghost use Rattle.std.specs.Prelude.{◌≡◌, ◌+◌, ◌*◌, ◌≤◌, ◌<◌, length, get_or, ℤ};
ghost use Rattle.columns.specs.Column.{part};
ghost use Rattle.places.specs.Places.{cell};
ghost use Rattle.places.specs.Signed.{signed32, signed8};
ghost use Rattle.world.specs.Rows.{rows, byte_of, given_or, word_of, pos_of, kind_of, facing_of, powered_of, is_powered, level_or, delay_or, support_of, has_stored_arms, arm_entry, stored_arm, shape_of, is_subtract};

use places::{Facing, Pos};

pub const WIDTH: usize = 32;

// The number of whole rows.
pub fn rows(table: &[u8]) -> usize
    ensures { result ≡ rows table.now }
{
    table.len() / WIDTH
}

// The bytes of a row, lent by themselves.
pub fn row_in(table: &[u8], row: usize) -> &[u8; 32]
    requires { row * 32 + 32 ≤ length table.now }
    ensures { result.now ≡ part 32 table.now row }
{
    table[row * WIDTH..(row + 1) * WIDTH].as_array().unwrap()
}

// Byte b of a row.
pub fn byte_of(table: &[u8], row: usize, b: usize) -> u8
    ensures { result ≡ byte_of table.now row b }
{
    if table.len() / WIDTH < row {
        return 0;
    }
    let start = row * WIDTH;
    if table.len() - start <= b {
        return 0;
    }
    table[start + b]
}

// The signed number in the four bytes from byte b on, low byte first. Of a row that is there whole no byte is asked for its being there.
fn coordinate(table: &[u8], row: usize, b: usize) -> i32
    requires { b < 29 }
    ensures { result ≡ signed32 (word_of table.now row b) }
{
    if row < rows(table) {
        return coordinate_in(row_in(table, row), b);
    }
    i32::from_le_bytes([
        byte_of(table, row, b),
        byte_of(table, row, b + 1),
        byte_of(table, row, b + 2),
        byte_of(table, row, b + 3),
    ])
}

// The first coordinate of a row's position.
pub fn x_of(table: &[u8], row: usize) -> i32
    ensures { result ≡ signed32 (word_of table.now row 0) }
{
    coordinate(table, row, 0)
}

// The position of a row.
pub fn pos_of(table: &[u8], row: usize) -> Pos
    ensures { result ≡ pos_of table.now row }
{
    Pos::new(
        coordinate(table, row, 0),
        coordinate(table, row, 4),
        coordinate(table, row, 8),
    )
}

// The same of a row that is lent by itself.
fn coordinate_in(row: &[u8; 32], b: usize) -> i32
    requires { b < 29 }
    ensures { result ≡ signed32 (word_of row.now 0 b) }
{
    i32::from_le_bytes([row[b], row[b + 1], row[b + 2], row[b + 3]])
}

// The position of a row that is lent by itself.
pub fn pos_in(row: &[u8; 32]) -> Pos
    ensures { result ≡ pos_of row.now 0 }
{
    Pos::new(
        coordinate_in(row, 0),
        coordinate_in(row, 4),
        coordinate_in(row, 8),
    )
}

pub fn kind_of(table: &[u8], row: usize) -> u8
    ensures { result ≡ kind_of table.now row }
{
    byte_of(table, row, 12)
}

// The facing's number: 0 missing, 1 North, 2 East, 3 South, 4 West, 5 Up, 6 Down.
pub fn facing_of(table: &[u8], row: usize) -> u8
    ensures { result ≡ facing_of table.now row }
{
    byte_of(table, row, 13)
}

// 0 missing, 1 false, 2 true.
pub fn powered_of(table: &[u8], row: usize) -> u8
    ensures { result ≡ powered_of table.now row }
{
    byte_of(table, row, 14)
}

pub fn is_powered(table: &[u8], row: usize) -> bool
    ensures { result ≡ is_powered table.now row }
{
    powered_of(table, row) == 2
}

// The value in byte b + 1 where byte b says that it is given, else the other number.
fn given_or(table: &[u8], row: usize, b: usize, other: u8) -> u8
    requires { b < 31 }
    ensures { result ≡ given_or table.now row b other }
{
    if byte_of(table, row, b) == 1 {
        return byte_of(table, row, b + 1);
    }
    other
}

// The power level where it is given, else the other number.
pub fn level_or(table: &[u8], row: usize, other: u8) -> u8
    ensures { result ≡ level_or table.now row other }
{
    given_or(table, row, 15, other)
}

// The delay where it is given, else the other number.
pub fn delay_or(table: &[u8], row: usize, other: u8) -> u8
    ensures { result ≡ delay_or table.now row other }
{
    given_or(table, row, 17, other)
}

// The signed number with these 8 bits.
fn signed_byte(n: u8) -> i32
    ensures { result ≡ signed8 n }
{
    i32::from(n.cast_signed())
}

// The position of the row's support, where its offset is given.
pub fn support_pos(table: &[u8], row: usize) -> Option<Pos>
    ensures { result ≡ support_of table.now row }
{
    if byte_of(table, row, 19) != 1 {
        return None;
    }
    let dx = signed_byte(byte_of(table, row, 20));
    let dy = signed_byte(byte_of(table, row, 21));
    let dz = signed_byte(byte_of(table, row, 22));
    Some(pos_of(table, row).offset(dx, dy, dz))
}

pub fn has_stored_arms(table: &[u8], row: usize) -> bool
    ensures { result ≡ has_stored_arms table.now row }
{
    byte_of(table, row, 23) == 1
}

// The entry along a horizontal facing: 0 no entry, 1 None, 2 Side, 3 Up. Along any other facing there is none.
fn arm_entry(table: &[u8], row: usize, facing: u8) -> u8
    ensures { result ≡ arm_entry table.now row facing }
{
    if facing < Facing::NORTH {
        return 0;
    }
    if Facing::WEST < facing {
        return 0;
    }
    byte_of(table, row, 23 + usize::from(facing))
}

// The stored entry of the arm along a facing, 0 where there is none.
pub fn stored_arm(table: &[u8], row: usize, facing: u8) -> u8
    ensures { result ≡ stored_arm table.now row facing }
{
    if has_stored_arms(table, row) {
        return arm_entry(table, row, facing);
    }
    0
}

pub fn shape_of(table: &[u8], row: usize) -> u8
    ensures { result ≡ shape_of table.now row }
{
    byte_of(table, row, 28)
}

// Whether the row's comparator mode is subtract.
pub fn is_subtract(table: &[u8], row: usize) -> bool
    ensures { result ≡ is_subtract table.now row }
{
    byte_of(table, row, 29) == 1
}
