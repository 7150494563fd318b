// Runs test 11 of document 01's book: the ends of the coordinates, and the most rows.
#![tactic(auto)]

mod report;
mod table;
mod test11;

use std::io;

fn main(rt: HostRuntime) -> io::Result<()> {
    test11::run(&rt)
}
