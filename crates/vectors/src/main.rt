// Replays the recorded answers of the original Rust, which stand in the file `vectors` as FORMAT.md says.
#![tactic(auto)]

ghost use Rattle.std.specs.Prelude.{◌≡◌, length};

use reading::read_all;
use replay::Tally;
use std::io;
use std::io::Read;
use std::rt::Files;

fn report(rt: &impl Print, tally: Tally) -> io::Result<()> {
    println!(rt; "records={}", tally.records)?;
    println!(rt; "right={}", tally.right)?;
    println!(rt; "wrong={}", tally.wrong)?;
    println!(rt; "ended={}", if tally.whole { "whole" } else { "cut" })
}

// Room for the file. The `ensures` gives only the length, so that no caller's proof computes the list.
fn room() -> [u8; 262144]
    ensures { 262144 ≡ length result }
{
    [0; 262144]
}

// How many bytes one read more answers after the last byte that was read: none at the end of the file.
fn read_more(file: &mut impl Read) -> io::Result<usize> {
    read_all(file, &mut [0u8; 1])
}

fn replay_file(rt: &impl Print, file: &mut impl Read) -> io::Result<()> {
    let mut bytes = room();
    let Ok(n) = read_all(file, &mut bytes) else {
        return println!(rt; "The file vectors cannot be read.");
    };
    match read_more(file) {
        Ok(0) => report(rt, replay::replay(&bytes[..n])),
        Ok(_) => println!(rt; "The file vectors is longer than 262,144 bytes."),
        Err(_) => println!(rt; "The file vectors cannot be read."),
    }
}

fn main(rt: HostRuntime) -> io::Result<()> {
    let Ok(mut file) = std::fs::open(&rt, "vectors") else {
        return println!(rt; "The file vectors cannot be opened.");
    };
    replay_file(&rt, &mut file)
}
