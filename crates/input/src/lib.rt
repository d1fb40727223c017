// Reading to the front of a buffer.
#![tactic(auto)]

ghost use Rattle.input.specs.Counts.{IsPrefixLen};

use std::io::Read;

// Reads until the buffer is full, the input ends or a read fails, and returns how many bytes it put at the front. On an empty buffer it makes
// no call. A read that a signal interrupts before it moves a byte counts as one that failed.
pub fn read_full<R: Read>(input: &mut R, buf: &mut [u8]) -> usize
    ensures { IsPrefixLen result buf.new }
{
    let mut done = 0;
    // kept: how far a turn comes is known only once its read is done, so that no range has the places.
    while done < buf.len() {
        match input.read(&mut buf[done..]) {
            Ok(0) | Err(_) => break,
            Ok(n) => done += n,
        }
    }
    done
}
