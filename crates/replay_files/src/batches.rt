// The stored batches.
use crate::batch_calls::{Asked, Counts, calls_found};
use crate::due::read_due;
use file::FileChoice;
use rows::units::Columns;
use stored_answers::difference::Difference;
use stored_answers::numbers::Reader;

// The next batch: its frames, the width, the mode, the rule and the answer.
pub(crate) fn replay_batch(answers: &mut Reader, counts: &mut Counts) -> Result<(), Difference> {
    let frames = answers.block();
    let choice = FileChoice {
        width: Columns(answers.eight()),
        mode: answers.eight(),
        rule: answers.eight(),
    };
    let due = read_due(answers);
    let asked = Asked { frames, choice };
    calls_found(asked, due, counts)
}
