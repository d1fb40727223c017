// Runs stored answers against the port (reference/ANSWERS.md): the original's to frames, and those to batches of files. Each group is a file of
// data/.
#![tactic(auto)]

mod batch_calls;
mod batches;
mod buffers;
mod due;
mod frames;
mod groups;
mod hash;
mod line;
mod pieces;
mod stored;
mod whole;

use stored_answers::group::{ROOM, filled, read};

// kept: which groups there are is all that it says; a function over a table of them would be no plainer.
fn main(rt: HostRuntime) {
    let mut input: [u8; ROOM] = filled(0);
    let n = read(&rt, b"frames", &mut input);
    groups::frames(&rt, &input[..n]);
    let n = read(&rt, b"batches", &mut input);
    groups::batches(&rt, &input[..n]);
}
