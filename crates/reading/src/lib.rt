// Reads from a reader, and tells an end from a failure.
#![tactic(auto)]

ghost use Rattle.std.specs.Prelude.{length};
ghost use Rattle.reading.specs.Input.{AtMost};

use std::io;
use std::io::Read;

// Reads until the input ends or the buffer is full. A read that fails is not tried again, as std's `read_exact` would, which also takes an early
// end for a failure.
pub fn read_all(from: &mut impl Read, buf: &mut [u8]) -> io::Result<usize>
    ensures { AtMost (length buf.old) result }
{
    let mut done = 0;
    while done < buf.len() {
        let n = from.read(&mut buf[done..])?;
        if n == 0 {
            break;
        }
        done += n;
    }
    Ok(done)
}
