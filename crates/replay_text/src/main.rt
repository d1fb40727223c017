// Runs stored answers of Rust's own text functions against crate `text` (reference/ANSWERS.md, "Text").
#![tactic(auto)]

mod questions;
mod run;
mod samples;
mod spaces;
mod strings;

use input::read_full;
use samples::samples;
use spaces::spaces;
use stored_answers::group::filled;
use stored_answers::numbers::Reader;
use stored_answers::report::show_end;
use strings::strings;

// Room for the answers.
const ROOM: usize = 1048576;

fn replay(rt: &impl Print, answers: &[u8]) {
    let one = strings(rt, Reader { answers, place: 0 });
    show_end(rt, b"strings of one and two bytes", one.end());
    let two = spaces(rt, one.answers);
    show_end(rt, b"white space of code points", two.end());
    let three = samples(rt, two.answers);
    show_end(rt, b"answers about samples", three.end());
    if three.answers.place < answers.len() {
        let _ = println!(rt; "bytes are left over");
    }
}

fn main(rt: HostRuntime) {
    let mut input: [u8; ROOM] = filled(0);
    let n = read_full(&mut rt.stdin(), &mut input);
    if n == ROOM {
        let _ = println!(&rt; "the answers have no room");
        return;
    }
    replay(&rt, &input[..n]);
}
