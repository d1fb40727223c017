// What a replay found, as lines: a case that differs, how often each answer was given, and the end. What can't be
// written is passed over.
ghost use Rattle.std.specs.Prelude.{◌≡◌, ◌≤◌, ◌<◌, length, set, get_or};
ghost use Rattle.stored_answers.specs.Numbers.{onward};
ghost use Rattle.stored_answers.specs.Differences.{differs, total, all_same, number_in};

use crate::difference::Difference;
use crate::numbers::{Reader, forward, past};
use refusals::Refused;

/// How many cases there are, how many differ, and whether the answers end before the last case does.
#[derive(Clone, Copy, Debug, Default, PartialEq, Eq)]
pub struct Compared {
    pub cases: usize,
    pub differ: usize,
    pub cut: bool,
}

/// Shows a case if it differs, and how many that are, 0 or 1.
pub fn told(rt: &impl Print, case: usize, found: Result<(), Difference>) -> usize
    ensures { (result ≡ differs found) × (result ≤ 1) }
{
    match found {
        Ok(()) => 0,
        Err(difference) => {
            let _ = println!(rt; "case {case} differs: {difference}");
            1
        }
    }
}

/// Replays the cases that answers store one after the other, each by the same function; each that differs is shown.
pub fn replay<P: Print, F: FnMut(&mut Reader) -> Result<(), Difference>>(
    rt: &P,
    answers: &[u8],
    mut case: F,
) -> Compared
    requires { F.IsAlwaysCallable case }
    ensures none_passed { 0 < length answers.now → 0 < result.cases }
    ensures each_goes_on { result.cases ≤ length answers.now }
    ensures differ { result.differ ≤ result.cases }
{
    let mut reader = Reader { answers, place: 0 };
    let mut cases = 0;
    let mut differ = 0;
    // kept: where the next case starts is known only once this one is read.
    while reader.place < answers.len() {
        let from = reader.place;
        let found = case(&mut reader);
        cases += 1;
        differ += told(rt, cases, found);
        reader = Reader {
            answers,
            place: forward(from, reader.place),
        };
    }
    Compared {
        cases,
        differ,
        cut: reader.is_cut(),
    }
}

// What it is of, and the rest of the line.
fn show_count(rt: &impl Print, what: &[u8], number: usize, n: usize) {
    if n == 0 {
        return;
    }
    let _ = rt.write_all(what);
    let _ = match number {
        0 => println!(rt; " accepted: {n}"),
        _ => println!(rt; " refused with {number}: {n}"),
    };
}

/// A line for each answer that was given, `accepted` or the number; how many answers that are in all.
pub fn show_counts(rt: &impl Print, what: &[u8], counts: &[usize]) -> usize
    ensures { result ≡ total counts.now }
{
    let mut all = 0;
    for (number, &n) in counts.iter().enumerate() {
        show_count(rt, what, number, n);
        all = past(all, n);
    }
    all
}

/// How many cases there are and how many differ, and whether the answers end too early; whether all is well.
pub fn show_end(rt: &impl Print, what: &[u8], c: Compared) -> bool
    ensures { result ≡ all_same c }
{
    let _ = rt.write_all(what);
    let _ = println!(rt; ": {}", c.cases);
    let _ = println!(rt; "differ: {}", c.differ);
    if c.cut {
        let _ = println!(rt; "the answers are cut off");
    }
    !c.cut && c.differ == 0
}

/// The number that an answer is counted under: that of a refusal, or 0.
pub fn number_of<T: Copy>(answer: Result<T, Refused>) -> usize
    ensures { result ≡ number_in answer }
{
    match answer {
        Ok(_) => 0,
        Err(refused) => usize::from(refused.number()),
    }
}

/// One more of an answer.
pub fn count(counts: &mut [usize], number: usize)
    ensures { counts.new ≡ set counts.old number (onward (get_or counts.old number 0) 1) }
{
    if number < counts.len() {
        counts[number] = past(counts[number], 1);
    }
}
