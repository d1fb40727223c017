// The stored verdicts on trees.
use readback::{Verdict, reads_back};
use stored_answers::difference::{Difference, Told};
use stored_answers::numbers::Reader;
use stored_answers::report::count;

// How many answers an image can have: a verdict, or a number up to 7. Verdicts of no are counted behind them once more.
pub(crate) const ANSWERS: usize = 8;

// The next tree: source and image, and the number and the place, or 0 and the offset of the operand that is due, 0 where there is none.
pub(crate) fn replay_verdict(answers: &mut Reader, counts: &mut [usize]) -> Result<(), Difference> {
    let source = answers.block();
    let image = answers.block();
    let told = Told {
        number: answers.short(),
        place: answers.long(),
    };
    match reads_back(source, image) {
        Err(refused) => {
            count(counts, usize::from(refused.number()));
            told.refused(refused)
        }
        Ok(Verdict::Same) => {
            count(counts, 0);
            told.found(0, 0)
        }
        Ok(Verdict::Differs(at)) => {
            count(counts, 0);
            count(counts, ANSWERS);
            told.found(0, at)
        }
    }
}
