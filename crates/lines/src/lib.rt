// The lines that the program `settle` writes, put into a buffer at a place. Each function answers the place after them.
#![tactic(auto)]

ghost use Rattle.std.specs.Prelude.{◌+◌, ◌*◌, ◌≤◌, length};
ghost use Rattle.columns.specs.Column.{concat_rows};
ghost use Rattle.columns.specs.Signal.{max_signal, AtMost15};
ghost use Rattle.world.specs.Rows.{rows as Rows·rows};
ghost use Rattle.text.specs.Put.{Puts};
ghost use Rattle.lines.specs.Lines.{place_text, levels_text, row_of, settled_text, refusal_text};

use places::Pos;
use world::row;

// The levels of a table's rows: an entry each, none above the cap.
#[derive(Clone, Copy)]
pub struct LevelColumns<'a> {
    pub signal: &'a [u8],
    pub weak: &'a [u8],
    pub strong: &'a [u8],
    ghost at_most15: { AtMost15 signal.now weak.now strong.now },
}

// A row's line up to its position.
fn place(out: &mut [u8], at: usize, q: Pos) -> usize
    requires { at + 40 ≤ length out.old }
    ensures puts { Puts (place_text q) at out.old out.new result }
    ensures few { result ≤ at + 40 }
{
    let x = text::bytes(out, at, b"row=");
    let y = text::signed(out, x, q.x, b',');
    let z = text::signed(out, y, q.y, b',');
    text::signed(out, z, q.z, b',')
}

// The rest of the line, of levels that have at most two digits.
fn levels(out: &mut [u8], at: usize, signal: u8, weak: u8, strong: u8) -> usize
    requires signal_le_max_signal { (signal ≤ max_signal) × (weak ≤ max_signal) × (strong ≤ max_signal) }
    requires at_in_bounds { at + 9 ≤ length out.old }
    ensures puts { Puts (levels_text signal weak strong) at out.old out.new result }
    ensures few { result ≤ at + 9 }
{
    let second = text::small_number(out, at, signal, b',');
    let third = text::small_number(out, second, weak, b',');
    text::small_number(out, third, strong, b'\n')
}

// The line of row i of a table.
fn line_of(out: &mut [u8], at: usize, table: &[u8], of: &LevelColumns, i: usize) -> usize
    requires { at + 49 ≤ length out.old }
    ensures puts { Puts (row_of table.now of.now.signal.now of.now.weak.now of.now.strong.now i) at out.old out.new result }
    ensures few { result ≤ at + 49 }
{
    let next = place(out, at, row::pos_of(table, i));
    levels(
        out,
        next,
        columns::byte_at(of.signal, i),
        columns::byte_at(of.weak, i),
        columns::byte_at(of.strong, i),
    )
}

// The lines of every row, in order.
fn rows(out: &mut [u8], at: usize, table: &[u8], of: &LevelColumns) -> usize
    requires { at + Rows·rows table.now * 49 ≤ length out.old }
    ensures { Puts (concat_rows (Rows·rows table.now) (row_of table.now of.now.signal.now of.now.weak.now of.now.strong.now)) at out.old out.new result }
{
    let mut end = at;
    for i in 0..row::rows(table) {
        end = line_of(out, end, table, of, i);
    }
    end
}

// What a table settles to, at the front: its rows, its rounds, and the lines of the rows.
pub fn settled(out: &mut [u8], table: &[u8], rounds: u32, of: &LevelColumns) -> usize
    requires { 56 + Rows·rows table.now * 49 ≤ length out.old }
    ensures { Puts (settled_text table.now rounds of.now.signal.now of.now.weak.now of.now.strong.now) 0 out.old out.new result }
{
    let second = text::line(out, 0, b"blocks=", row::rows(table) as u64);
    let third = text::line(out, second, b"rounds=", u64::from(rounds));
    rows(out, third, table, of)
}

// The number of a refusal, and the row at fault, at the front.
pub fn refusal(out: &mut [u8], number: u8, row: u16) -> usize
    requires { 56 ≤ length out.old }
    ensures { Puts (refusal_text number row) 0 out.old out.new result }
{
    let next = text::line(out, 0, b"refusal=", u64::from(number));
    text::line(out, next, b"place=", u64::from(row))
}
