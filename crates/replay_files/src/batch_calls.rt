// The calls for a stored batch: with more room than it needs, with just enough, and with one number or byte less.
use crate::buffers::{NO_BYTE, NO_NUMBER, OUTPUT, TABLE, count_files, table_found, texts_found};
use crate::due::{Due, answer_found, refusal};
use batch::{Batch, format_batch};
use file::FileChoice;
use refusals::{Reason, Refused};
use stored_answers::difference::{Difference, Told};
use stored_answers::group::filled;
use stored_answers::report::{count, number_of};

// What refuses a table or an output that is too small.
fn no_room(place: usize) -> Told {
    Told {
        number: usize::from(Reason::BatchNeeds.number()),
        place,
    }
}

// What is formatted, and how.
#[derive(Clone, Copy)]
pub(crate) struct Asked<'a> {
    pub frames: &'a [u8],
    pub choice: FileChoice,
}

// How often each answer was given, to files and to batches.
#[derive(Drop)]
pub(crate) struct Counts<'a> {
    pub files: &'a mut [usize],
    pub batches: &'a mut [usize],
}

// An answer with table and output against what is due.
fn call_found(
    due: Due,
    answer: Result<Batch, Refused>,
    table: &[u32; TABLE],
    output: &[u8; OUTPUT],
) -> Result<(), Difference> {
    answer_found(answer, due)?;
    table_found(due, table)?;
    texts_found(due, output)
}

// The call with more room, whose answers are counted.
fn ample_found(asked: Asked, due: Due, counts: &mut Counts) -> Result<(), Difference> {
    let mut table: [u32; TABLE] = filled(NO_NUMBER);
    let mut output: [u8; OUTPUT] = filled(NO_BYTE);
    let answer = format_batch(asked.frames, &mut table, &mut output, asked.choice);
    count(counts.batches, number_of(answer));
    count_files(counts.files, &table);
    call_found(due, answer, &table, &output)
}

// The call with so many numbers of table and bytes of output.
fn lent_found(asked: Asked, due: Due, cells: usize, bytes: usize) -> Result<(), Difference> {
    let mut table: [u32; TABLE] = filled(NO_NUMBER);
    let mut output: [u8; OUTPUT] = filled(NO_BYTE);
    let (Some(lent_table), Some(lent_output)) = (table.get_mut(..cells), output.get_mut(..bytes))
    else {
        return Err(Difference::Room);
    };
    let answer = format_batch(asked.frames, lent_table, lent_output, asked.choice);
    call_found(due, answer, &table, &output)
}

// A table with a number less, whatever the output.
fn short_table_found(asked: Asked, due: Due) -> Result<(), Difference> {
    let cells = due.cells;
    if cells == 0 {
        return Ok(());
    }
    let refused = refusal(no_room(cells), due.table);
    lent_found(asked, refused, cells - 1, OUTPUT)?;
    lent_found(asked, refused, cells - 1, 0)
}

// An output with a byte less.
fn short_output_found(asked: Asked, due: Due) -> Result<(), Difference> {
    let bytes = due.bytes;
    if bytes == 0 {
        return Ok(());
    }
    let refused = refusal(no_room(bytes), due.table);
    lent_found(asked, refused, due.cells, bytes - 1)
}

// All calls.
pub(crate) fn calls_found(asked: Asked, due: Due, counts: &mut Counts) -> Result<(), Difference> {
    ample_found(asked, due, counts)?;
    lent_found(asked, due, due.cells, due.bytes)?;
    short_table_found(asked, due)?;
    short_output_found(asked, due)
}
