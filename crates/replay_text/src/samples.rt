// Section 3: the samples.
use crate::questions::ask_all;
use crate::run::Run;
use crate::strings::check_answer;
use stored_answers::numbers::Reader;

// The sample that comes next: its length in one byte, its bytes, its check, and if that says well-formed, the answers about it.
fn sample(rt: &impl Print, run: &mut Run) {
    let size = run.answers.byte();
    if run.answers.is_cut() {
        return;
    }
    let s = run.answers.bytes(size);
    let stored = run.answers.byte();
    run.compared(rt, stored == check_answer(s));
    if stored == 255 {
        ask_all(rt, run, s);
    }
}

// The number of samples, and the samples.
pub(crate) fn samples<'a>(rt: &impl Print, mut answers: Reader<'a>) -> Run<'a> {
    let count = answers.short();
    let mut run = Run::new(answers);
    for _ in 0..count {
        sample(rt, &mut run);
    }
    run
}
