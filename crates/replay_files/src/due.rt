// What is due for a batch: what is stored, or a refusal for want of room.
use batch::Batch;
use refusals::Refused;
use stored_answers::difference::{Difference, Told, unless};
use stored_answers::numbers::Reader;

// How many numbers the table has for a file, and the bytes that they are stored in.
pub(crate) const CELLS: usize = 3;

const ROW: usize = 12;

#[derive(Clone, Copy)]
pub(crate) struct Due<'a> {
    // the refusal's number, or 0; its place, or how many files
    told: Told,
    // how many numbers the table gets, and where they are stored
    pub cells: usize,
    pub table: Reader<'a>,
    // how many bytes the output gets, and where they are stored
    pub bytes: usize,
    pub texts: Reader<'a>,
}

// A refusal, under which table and output get nothing.
pub(crate) fn refusal(told: Told, answers: Reader<'_>) -> Due<'_> {
    Due {
        told,
        cells: 0,
        table: answers,
        bytes: 0,
        texts: answers,
    }
}

// The answer that comes next.
pub(crate) fn read_due<'a>(answers: &mut Reader<'a>) -> Due<'a> {
    let told = Told {
        number: answers.short(),
        place: answers.long(),
    };
    let files = told.place;
    let table = *answers;
    if told.number != 0 {
        return refusal(told, table);
    }
    answers.skip(files * ROW);
    let bytes = answers.long();
    let texts = *answers;
    answers.skip(bytes);
    Due {
        told,
        cells: files * CELLS,
        table,
        bytes,
        texts,
    }
}

// An answer against what is due.
pub(crate) fn answer_found(answer: Result<Batch, Refused>, due: Due) -> Result<(), Difference> {
    match answer {
        Ok(batch) => {
            unless(due.told.number == 0, Difference::Number)?;
            let same = batch.files == due.told.place && batch.bytes == due.bytes;
            unless(same, Difference::Count)
        }
        Err(refused) => due.told.refused(refused),
    }
}
