// The groups of stored answers, each with the buffers that its replay needs.
use crate::batch_calls::Counts;
use crate::batches::replay_batch;
use crate::frames::{Buffers, replay_frame};
use file::{marks, rows};
use stored_answers::group::filled;
use stored_answers::report::{replay, show_counts, show_end};

pub(crate) fn frames(rt: &impl Print, answers: &[u8]) {
    let mut store = rows();
    let mut marks = marks();
    let mut out: [u8; 65536] = filled(0);
    let mut counts = [0usize; 21];
    let mut archived = [0usize; 21];
    let mut buffers = Buffers {
        store: &mut store,
        marks: &mut marks,
        out: &mut out,
        counts: &mut counts,
        archived: &mut archived,
    };
    let c = replay(rt, answers, |answers| replay_frame(answers, &mut buffers));
    show_counts(rt, b"frames", &counts);
    show_counts(rt, b"archived frames", &archived);
    show_end(rt, b"frames", c);
}

// Batches of files.
pub(crate) fn batches(rt: &impl Print, answers: &[u8]) {
    let mut files = [0usize; 21];
    let mut batches = [0usize; 20];
    let mut counts = Counts {
        files: &mut files,
        batches: &mut batches,
    };
    let c = replay(rt, answers, |answers| replay_batch(answers, &mut counts));
    show_counts(rt, b"files", &files);
    show_counts(rt, b"batches", &batches);
    show_end(rt, b"batches", c);
}
