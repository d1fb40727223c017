// Runs stored answers against the port (reference/ANSWERS.md): the original's to lists of calls, and those to lists of steps, to moves of
// images and to whether trees are read back the same. Each group is a file of data/.
#![tactic(auto)]

mod calls;
mod cases;
mod groups;
mod image_moves;
mod states;
mod step_lists;
mod verdicts;

use stored_answers::group::{ROOM, filled, read};

// kept: which groups there are is all that it says; a function over a table of them would be no plainer.
fn main(rt: HostRuntime) {
    let mut input: [u8; ROOM] = filled(0);
    let n = read(&rt, b"calls", &mut input);
    groups::calls(&rt, &input[..n]);
    let n = read(&rt, b"steps", &mut input);
    groups::steps(&rt, &input[..n]);
    let n = read(&rt, b"moves", &mut input);
    groups::moves(&rt, &input[..n]);
    let n = read(&rt, b"verdicts", &mut input);
    groups::verdicts(&rt, &input[..n]);
}
