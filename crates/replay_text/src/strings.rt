// Section 1: the check of each string of one byte and of two.
use crate::run::Run;
use stored_answers::numbers::Reader;
use text::utf8::check;

// A check as it is stored.
// kept: a number and no Option: it is compared with a stored byte, which is 255 where the check accepts.
pub(crate) fn check_answer(s: &[u8]) -> usize {
    match check(s) {
        Ok(()) => 255,
        Err(refused) => refused.place,
    }
}

fn string(rt: &impl Print, run: &mut Run, s: &[u8]) {
    let stored = run.answers.byte();
    run.compared(rt, stored == check_answer(s));
}

// The strings of two bytes with this first one.
fn pairs(rt: &impl Print, run: &mut Run, first: u8) {
    for second in 0..256u16 {
        string(rt, run, &[first, second as u8]);
    }
}

fn singles(rt: &impl Print, run: &mut Run) {
    for only in 0..256u16 {
        string(rt, run, &[only as u8]);
    }
}

pub(crate) fn strings<'a>(rt: &impl Print, answers: Reader<'a>) -> Run<'a> {
    let mut run = Run::new(answers);
    singles(rt, &mut run);
    for first in 0..256u16 {
        pairs(rt, &mut run, first as u8);
    }
    run
}
