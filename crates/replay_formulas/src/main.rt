// Runs stored answers to sizes and places of formulas against the port (reference/ANSWERS.md, "Formulas").
#![tactic(auto)]

mod places;

use crate::places::{Buffers, replay_formula};
use stored_answers::group::{ROOM, filled, read};
use stored_answers::report::{replay, show_counts, show_end};

fn main(rt: HostRuntime) {
    let mut input: [u8; ROOM] = filled(0);
    let n = read(&rt, b"formulas", &mut input);
    let mut image: [u8; 512] = filled(0);
    let mut counts = [0usize; 25];
    let mut buffers = Buffers {
        image: &mut image,
        counts: &mut counts,
    };
    let c = replay(&rt, &input[..n], |answers| {
        replay_formula(answers, &mut buffers)
    });
    show_counts(&rt, b"formulas", &counts);
    show_end(&rt, b"formulas", c);
}
