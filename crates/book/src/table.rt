// The bench profile, and what the tables of the book's tests are built with. Fields that are not named are 0, and no coordinate is below 0.
ghost use Rattle.std.specs.Prelude.{◌≡◌};
ghost use Rattle.book.specs.Tables.{put_block, put_line};

use blocks::kind;
use words::write_word;
use world::row::WIDTH;

pub const BENCH_PROFILE: [u8; 13] = [0, 31, 1, 0, 0, 0, 0, 0, 0, 0, 31, 1, 0];

// Puts a block of a kind at (x, y, 0) into a row of the table, if it has that row.
pub fn put_block(t: &mut [u8], row: usize, x: u32, y: u32, kind: u8)
    ensures { t.new ≡ put_block t.old row x y kind }
{
    if row < t.len() / WIDTH {
        let start = row * WIDTH;
        write_word(t, start, x);
        write_word(t, start + 4, y);
        t[start + 12] = kind;
    }
}

// Puts Solid blocks side by side into the first rows, from the origin to the east.
pub fn put_line(t: &mut [u8], rows: u32)
    ensures { t.new ≡ put_line t.old rows }
{
    for i in 0..rows {
        put_block(t, i as usize, i, 0, kind::SOLID);
    }
}
