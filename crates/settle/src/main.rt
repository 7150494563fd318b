// Reads a profile and a table from standard input, and writes what the table settles to, or why it is refused.
#![tactic(auto)]

// Writes the text of what was read.
fn report_on(rt: &(impl Print + Eprint), input: &[u8]) {
    let mut text = [0u8; report::ROOM];
    let count = report::settle_text(input, &mut text);
    if rt.write_all(&text[..count]).is_err() {
        let _ = eprintln!(rt; "settle: standard output cannot be written");
    }
}

// One byte more than the longer profile and the largest table have is enough to tell that there are too many. Where a sentence cannot be written to
// standard error either, there is nobody to tell.
fn main(rt: HostRuntime) {
    let mut input = [0u8; report::TOO_MANY];
    match reading::read_all(&mut rt.stdin(), &mut input) {
        Ok(n) => report_on(&rt, &input[..n]),
        Err(_) => {
            let _ = eprintln!(rt; "settle: standard input cannot be read");
        }
    }
}
