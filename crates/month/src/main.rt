// Reads a profile and then tables from standard input, and writes how many of them settle, in how many rounds, and to which levels of dust.
#![tactic(auto)]

ghost use Rattle.std.specs.Prelude.{◌≤◌, length, IfOk};
ghost use Rattle.totals.specs.Month.{IsMonth};
ghost use Rattle.reading.specs.Input.{AtMost};
ghost use Rattle.month.specs.Piece.{IsPiece};

use blocks::PROFILE_BYTES;
use reading::read_all;
use std::io;
use std::io::Read;
use streams::{COUNT_BYTES, Ending, MOST_TABLES};
use totals::Month;

// A row count and the largest table.
const MOST_BYTES: usize = 32772;

// Where a buffer has this many bytes, the text has room in it.
const ROOM: usize = 4096;

// A line of progress is written once every so many tables.
const PROGRESS: u64 = 10000;

fn progress(rt: &impl Eprint, tables_read: u64) {
    if tables_read % PROGRESS == 0 {
        let _ = eprintln!(rt; "month: {tables_read} tables read");
    }
}

// Reads a row count and its table into the front of a buffer: fewer bytes where the input ends.
fn read_table(from: &mut impl Read, buf: &mut [u8]) -> io::Result<usize>
    requires { 32772 ≤ length buf.old }
    ensures { IsPiece buf.new result }
{
    let n = read_all(from, &mut buf[0..COUNT_BYTES])?;
    if n < COUNT_BYTES {
        return Ok(n);
    }
    let end = COUNT_BYTES + streams::bytes_to_read(buf);
    let more = read_all(from, &mut buf[COUNT_BYTES..end])?;
    Ok(n + more)
}

// Reads one byte into the front of a buffer, if there is one.
fn read_byte(from: &mut impl Read, buf: &mut [u8]) -> io::Result<usize>
    requires { 1 ≤ length buf.old }
    ensures { AtMost 1 result }
{
    read_all(from, &mut buf[0..1])
}

// The month of the tables that are read, one at a time, until the reading ends, if they can be read. After the last table that may be read one byte
// more tells whether the input ends there, too.
fn count(
    rt: &impl Eprint,
    from: &mut impl Read,
    profile: &[u8],
    buf: &mut [u8],
) -> io::Result<Month>
    requires { 32772 ≤ length buf.old }
    ensures { IfOk result (λ m. IsMonth profile.now m) }
{
    let mut month = totals::start();
    for tables_before in 0..MOST_TABLES {
        let n = read_table(from, buf)?;
        month = totals::read(month, profile, &buf[..n]);
        if n == 0 || month.ending != Ending::Whole {
            return Ok(month);
        }
        progress(rt, tables_before + 1);
    }
    let n = read_byte(from, buf)?;
    Ok(totals::read(month, profile, &buf[..n]))
}

// Writes the text for a profile and the month of the tables after it.
fn report(rt: &(impl Print + Eprint), profile: &[u8], month: Month) {
    let mut out = [0u8; ROOM];
    let n = month_lines::text_of(&mut out, profile, month);
    if rt.write_all(&out[..n]).is_err() {
        let _ = eprintln!(rt; "month: standard output cannot be written");
    }
}

// The month of the tables after a profile: none where the profile is refused.
fn month_of(rt: &impl Eprint, from: &mut impl Read, profile: &[u8]) -> io::Result<Month>
    ensures { IfOk result (λ m. IsMonth profile.now m) }
{
    if layout::good_profile(profile) {
        return count(rt, from, profile, &mut [0u8; MOST_BYTES]);
    }
    Ok(totals::start())
}

// Fails where the input cannot be read.
fn run(rt: &(impl Print + Eprint), from: &mut impl Read) -> io::Result<()> {
    let mut buf = [0u8; PROFILE_BYTES];
    let n = read_all(from, &mut buf)?;
    let profile = &buf[..n];
    let month = month_of(rt, from, profile)?;
    report(rt, profile, month);
    Ok(())
}

// Where a sentence cannot be written to standard error either, there is nobody to tell.
fn main(rt: HostRuntime) {
    if run(&rt, &mut rt.stdin()).is_err() {
        let _ = eprintln!(rt; "month: standard input cannot be read");
    }
}
