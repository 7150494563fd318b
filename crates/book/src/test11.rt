// Test 11: "Coordinate 1,000,000 passes, 1,000,001 is 4. 1,024 rows pass, 1,025 is 3". A case that passes answers 0.
ghost use Rattle.std.specs.Prelude.{◌≡◌};
ghost use Rattle.book.specs.Test11.{refusal_number, answer_to, coordinate_answer, rows_answer};

use crate::report::line;
use crate::table::{BENCH_PROFILE, put_block, put_line};
use blocks::kind;
use refusals::Checked;
use std::io;

fn refusal_number(checked: Checked) -> u8
    ensures { result ≡ refusal_number checked }
{
    match checked {
        Ok(()) => 0,
        Err(refused) => refused.number,
    }
}

// What the bench profile and a table answer.
fn answer_to(t: &[u8]) -> u64
    ensures { result ≡ answer_to t.now }
{
    u64::from(refusal_number(refusals::check_input(&BENCH_PROFILE, t)))
}

// One Solid block at (x, 0, 0).
fn coordinate(x: u32) -> u64
    ensures { result ≡ coordinate_answer x }
{
    let mut t = [0u8; 32];
    put_block(&mut t, 0, x, 0, kind::SOLID);
    answer_to(&t)
}

// That many Solid blocks side by side, in a table of zeros.
fn rows(zeros: &mut [u8], n: u32) -> u64
    ensures { result ≡ rows_answer zeros.old n }
{
    put_line(zeros, n);
    answer_to(zeros)
}

fn rows_1024() -> u64 {
    rows(&mut [0u8; 32768], 1024)
}

fn rows_1025() -> u64 {
    rows(&mut [0u8; 32800], 1025)
}

pub fn run(rt: &impl Print) -> io::Result<()> {
    line(rt, 11, "coordinate_1000000", coordinate(1000000))?;
    line(rt, 11, "coordinate_1000001", coordinate(1000001))?;
    line(rt, 11, "rows_1024", rows_1024())?;
    line(rt, 11, "rows_1025", rows_1025())
}
