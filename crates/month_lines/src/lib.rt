// The lines that the program `month` writes, put into a buffer at a place. Each function answers the place after them.
#![tactic(auto)]

ghost use Rattle.std.specs.Prelude.{◌+◌, ◌*◌, ◌≤◌, length};
ghost use Rattle.text.specs.Put.{Puts};
ghost use Rattle.month_lines.specs.Lines.{numbered_line, numbered_lines, ended_text, month_text, text_of};

use blocks::PROFILE_BYTES;
use refusals::Refused;
use streams::Ending;
use totals::Month;

// A name of at most seven bytes, its number and a figure, as a line.
fn numbered_line(out: &mut [u8], at: usize, name: &[u8], k: usize, n: u64) -> usize
    requires { (length name.now ≤ 7) × (at + 49 ≤ length out.old) }
    ensures puts { Puts (numbered_line name.now k n) at out.old out.new result }
    ensures few { result ≤ at + 49 }
{
    let number = text::bytes(out, at, name);
    let figure = text::number(out, number, k as u64, b'=');
    text::number(out, figure, n, b'\n')
}

// Such a line for each of some figures, from a number on.
fn numbered_lines(out: &mut [u8], at: usize, name: &[u8], first: usize, counts: &[u64]) -> usize
    requires { (length name.now ≤ 7) × (first + length counts.now ≤ 1024) × (at + length counts.now * 49 ≤ length out.old) }
    ensures puts { Puts (numbered_lines name.now first counts.now) at out.old out.new result }
    ensures few { result ≤ at + length counts.now * 49 }
{
    let mut end = at;
    for (k, count) in counts.iter().enumerate() {
        end = numbered_line(out, end, name, first + k, *count);
    }
    end
}

// How the reading ended.
fn ended_line(out: &mut [u8], at: usize, ending: Ending) -> usize
    requires { at + 12 ≤ length out.old }
    ensures { Puts (ended_text ending) at out.old out.new result }
{
    match ending {
        Ending::Whole => text::bytes(out, at, b"ended=whole\n"),
        Ending::Cut => text::bytes(out, at, b"ended=cut\n"),
        Ending::Count => text::bytes(out, at, b"ended=count\n"),
    }
}

// All lines of a month, at the front.
fn all_lines(out: &mut [u8], month: Month) -> usize
    requires { 2048 ≤ length out.old }
    ensures { Puts (month_text month) 0 out.old out.new result }
{
    let figures = month.figures;
    let second = text::line(out, 0, b"tables=", figures.tables);
    let third = text::line(out, second, b"refused=", figures.refused);
    let fourth = numbered_lines(out, third, b"rounds_", 1, &figures.rounds);
    let last = numbered_lines(out, fourth, b"level_", 0, &figures.levels);
    ended_line(out, last, month.ending)
}

// The text for a profile and the month of the tables after it, at the front.
pub fn text_of(out: &mut [u8], profile: &[u8], month: Month) -> usize
    requires { 2048 ≤ length out.old }
    ensures { Puts (text_of profile.now month) 0 out.old out.new result }
{
    if (profile.len() == PROFILE_BYTES) & layout::good_profile(profile) {
        return all_lines(out, month);
    }
    lines::refusal(out, Refused::PROFILE, 0)
}
