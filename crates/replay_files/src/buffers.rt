// Tables and outputs, made anew for each call; and what a call leaves in them.
use crate::due::{CELLS, Due};
use stored_answers::compare::{Stored, is_next};
use stored_answers::difference::{Difference, unless};
use stored_answers::numbers::Reader;
use stored_answers::report::count;

// Room for every stored table, and for every stored text.
pub(crate) const TABLE: usize = 768;

pub(crate) const OUTPUT: usize = 1024;

// What a batch doesn't write: no number is as large, and no text has such a byte.
pub(crate) const NO_NUMBER: u32 = u32::MAX;

pub(crate) const NO_BYTE: u8 = u8::MAX;

// The first `size` of a buffer against what is stored, and what is behind against a new buffer's.
fn buffer_found<T: Stored + PartialEq>(
    buffer: &[T],
    size: usize,
    stored: Reader,
    new: T,
    what: Difference,
) -> Result<(), Difference> {
    let Some((used, rest)) = buffer.split_at_checked(size) else {
        return Err(Difference::Room);
    };
    unless(
        is_next(used, &stored) && rest.iter().all(|x| *x == new),
        what,
    )
}

// A table against what is due.
pub(crate) fn table_found(due: Due, table: &[u32]) -> Result<(), Difference> {
    buffer_found(table, due.cells, due.table, NO_NUMBER, Difference::Rows)
}

// The same of an output.
pub(crate) fn texts_found(due: Due, output: &[u8]) -> Result<(), Difference> {
    buffer_found(output, due.bytes, due.texts, NO_BYTE, Difference::Text)
}

// Counts the answers to files, which stand first in their rows; a row that wasn't written has a number that is not counted.
pub(crate) fn count_files(counts: &mut [usize], table: &[u32]) {
    for row in table.chunks(CELLS) {
        if let Some(number) = row.first() {
            count(counts, *number as usize);
        }
    }
}
