// Request 7: a night's saves in one call.
#![tactic(auto)]

mod counting;
mod frames;
mod writing;

ghost use Rattle.file.specs.Whole.{to_choice};
ghost use Rattle.batch.specs.Whole.{Batches};

use crate::counting::count_texts;
use crate::frames::count_frames;
use crate::writing::{CELLS, write_saves};
use file::{FileChoice, marks, rows};
use refusals::{Reason, Refused};

/// What a batch gives: how many files there are, and the bytes of their texts.
#[derive(Clone, Copy, Debug, PartialEq, Eq)]
pub struct Batch {
    pub files: usize,
    pub bytes: usize,
}

// kept: buffer, table and output are lent by C, one by one; a struct of them would be made here and taken apart in `write_saves`.
/// Formats the files of a buffer as single calls would, or refuses to and leaves table and output as they were.
pub fn format_batch(
    frames: &[u8],
    table: &mut [u32],
    out: &mut [u8],
    choice: FileChoice,
) -> Result<Batch, Refused>
    ensures { Batches frames.now (to_choice choice) table.old out.old result table.new out.new }
{
    let files = count_frames(frames)?;
    let cells = files * CELLS;
    if table.len() < cells {
        return Err(Reason::BatchNeeds.at(cells));
    }
    // One after the other the files have the same rows and marks, which are cleared once.
    let mut store = rows();
    let mut used = marks();
    let bytes = count_texts(frames, &mut store, &mut used, choice);
    if out.len() < bytes {
        return Err(Reason::BatchNeeds.at(bytes));
    }
    write_saves(frames, &mut store, &mut used, table, out, choice);
    Ok(Batch { files, bytes })
}
