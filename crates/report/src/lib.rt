// The text that the program `settle` writes, as a function of the whole of its input.
#![tactic(auto)]

ghost use Rattle.std.specs.Prelude.{◌≡◌, ◌≤◌, length};
ghost use Rattle.refusals.specs.Check.{accepted, check_input};
ghost use Rattle.text.specs.Put.{Puts};
ghost use Rattle.report.specs.Text.{profile_bytes, profile_of, table_of, check_run, has_whole_rows, run_text, text_of, settle_text, room, Reports};

use blocks::{PROFILE_BYTES, PROFILE_BYTES_WITH_BULB};
use lines::LevelColumns;
use refusals::Refused;
use world::row;

// Where a buffer has this many bytes, the text has room in it.
pub const ROOM: usize = 65536;

// The longer profile and the largest table.
const MOST: usize = 32782;

// So many bytes, and no fewer, tell that an input is too long.
pub const TOO_MANY: usize = 32783;

// The text of an accepted table.
#[tactic(auto, using(crate::proofs::Run::run_few))]
fn settled(profile: &[u8], table: &[u8], out: &mut [u8]) -> usize
    requires { (check_input profile.now table.now ≡ accepted) × (room ≤ length out.old) }
    ensures { Puts (run_text profile.now table.now) 0 out.old out.new result }
{
    let made = initial::settle(profile, table);
    let n = row::rows(table);
    let columns = LevelColumns {
        signal: &made.signal[..n],
        weak: &made.weak[..n],
        strong: &made.strong[..n],
    };
    lines::settled(out, table, made.answer, &columns)
}

// The text of a profile and a table.
fn checked(profile: &[u8], table: &[u8], out: &mut [u8]) -> usize
    requires { room ≤ length out.old }
    ensures { Puts (text_of (check_run profile.now table.now) (run_text profile.now table.now)) 0 out.old out.new result }
{
    match refusals::check_input(profile, table) {
        Ok(()) => settled(profile, table, out),
        Err(refused) => lines::refusal(out, refused.number, refused.row),
    }
}

// How many bytes of an input are the profile's.
fn profile_bytes(input: &[u8]) -> usize
    ensures { result ≡ profile_bytes input.now }
{
    if input.len() % row::WIDTH == PROFILE_BYTES_WITH_BULB {
        return PROFILE_BYTES_WITH_BULB;
    }
    PROFILE_BYTES
}

// Whether an input is a profile and whole rows, by its length.
fn has_whole_rows(input: &[u8]) -> bool
    ensures { result ≡ has_whole_rows input.now }
{
    (input.len() % row::WIDTH == PROFILE_BYTES)
        | (input.len() % row::WIDTH == PROFILE_BYTES_WITH_BULB)
}

// The text of an input of no fewer bytes than the shorter profile, parted into the profile and the table.
fn parted(input: &[u8], out: &mut [u8]) -> usize
    requires { (13 ≤ length input.now) × (room ≤ length out.old) }
    ensures { Puts (text_of (check_run (profile_of input.now) (table_of input.now)) (run_text (profile_of input.now) (table_of input.now))) 0 out.old out.new result }
{
    let end = profile_bytes(input);
    checked(&input[0..end], &input[end..], out)
}

// The text of the whole input.
fn whole(input: &[u8], out: &mut [u8]) -> usize
    requires { room ≤ length out.old }
    ensures { Puts (settle_text input.now) 0 out.old out.new result }
{
    if MOST < input.len() {
        return lines::refusal(out, Refused::CROWDED, 0);
    }
    if input.len() < PROFILE_BYTES {
        return lines::refusal(out, Refused::PROFILE, 0);
    }
    if has_whole_rows(input) {
        return parted(input, out);
    }
    lines::refusal(out, Refused::RAGGED, 0)
}

// Puts the text that the program writes for its whole input at the front of a buffer, and answers how many bytes it has. In a buffer
// of fewer than ROOM bytes it puts nothing, and answers 0.
pub fn settle_text(input: &[u8], out: &mut [u8]) -> usize
    ensures { Reports input.now out.old out.new result }
{
    if out.len() < ROOM {
        return 0;
    }
    whole(input, out)
}
