// Section 2: White_Space of every code point.
use crate::run::Run;
use stored_answers::numbers::Reader;
use text::space::is_whitespace;

const CODE_POINTS: u32 = 0x110000;

// How many bytes a range has: its first and its last code point.
const RANGE: usize = 8;

// Whether c is in one of so many ranges.
fn is_listed(mut ranges: Reader, count: usize, c: usize) -> bool {
    for _ in 0..count {
        let first = ranges.long();
        let last = ranges.long();
        if first <= c && c <= last {
            return true;
        }
    }
    false
}

// The number of ranges, and the ranges. Each code point is a case; the next section starts behind the ranges.
pub(crate) fn spaces<'a>(rt: &impl Print, mut answers: Reader<'a>) -> Run<'a> {
    let count = answers.short();
    let ranges = answers;
    answers.skip(count * RANGE);
    let mut run = Run::new(answers);
    for c in 0..CODE_POINTS {
        let listed = is_listed(ranges, count, c as usize);
        run.compared(rt, listed == is_whitespace(c));
    }
    run
}
