// The groups of stored answers, each with the buffers that its replay needs.
use crate::calls::{ANSWERS, BEFORE_ARCHIVE};
use crate::cases::{self, replay_case};
use crate::image_moves::{self, replay_move};
use crate::step_lists::{self, replay_list};
use crate::verdicts::{ANSWERS as VERDICTS, replay_verdict};
use render_call::MAX_LISTED;
use stored_answers::group::filled;
use stored_answers::report::{replay, show_counts, show_end};

// Lists of calls. The text's room is for the joined texts of a list, and the output of its next call.
pub(crate) fn calls(rt: &impl Print, answers: &[u8]) {
    let mut store: [u32; 16384] = filled(0);
    let mut marks: [u8; 4096] = filled(0);
    let mut listed: [u32; MAX_LISTED] = filled(0);
    let mut text: [u8; 1114112] = filled(0);
    let mut counts = [0usize; 72];
    let mut buffers = cases::Buffers {
        store: &mut store,
        marks: &mut marks,
        listed: &mut listed,
        text: &mut text,
        counts: &mut counts,
    };
    let c = replay(rt, answers, |answers| replay_case(answers, &mut buffers));
    show_counts(rt, b"layout calls", &counts[..ANSWERS]);
    show_counts(rt, b"rendering calls", &counts[ANSWERS..BEFORE_ARCHIVE]);
    show_counts(rt, b"archive layout calls", &counts[BEFORE_ARCHIVE..]);
    show_end(rt, b"lists", c);
}

// Lists of steps. The source is blanks, as many as one may have: the spans and comments of every stored list fit them.
pub(crate) fn steps(rt: &impl Print, answers: &[u8]) {
    let source: [u8; 65536] = filled(b' ');
    let mut image: [u8; 4096] = filled(0);
    let mut steps: [u8; 4096] = filled(0);
    let mut counts = [0usize; 18];
    let mut buffers = step_lists::Buffers {
        source: &source,
        image: &mut image,
        steps: &mut steps,
        counts: &mut counts,
    };
    let c = replay(rt, answers, |answers| replay_list(answers, &mut buffers));
    show_counts(rt, b"lists of steps", &counts);
    show_end(rt, b"lists of steps", c);
}

// Moves of images between versions.
pub(crate) fn moves(rt: &impl Print, answers: &[u8]) {
    let mut moved: [u8; 4096] = filled(0);
    let mut back: [u8; 4096] = filled(0);
    let mut counts = [0usize; 22];
    let mut buffers = image_moves::Buffers {
        moved: &mut moved,
        back: &mut back,
        counts: &mut counts,
    };
    let c = replay(rt, answers, |answers| replay_move(answers, &mut buffers));
    show_counts(rt, b"moves", &counts);
    show_end(rt, b"moves", c);
}

// Trees that may be read back differently.
pub(crate) fn verdicts(rt: &impl Print, answers: &[u8]) {
    let mut counts = [0usize; 9];
    let c = replay(rt, answers, |answers| replay_verdict(answers, &mut counts));
    show_counts(rt, b"verdicts", &counts[..VERDICTS]);
    show_counts(rt, b"verdicts of no", &counts[VERDICTS..]);
    show_end(rt, b"verdicts", c);
}
