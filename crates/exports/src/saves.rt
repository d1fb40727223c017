// Request 7: a night's saves in one call.
// kept: the C interface: C hands over each buffer and array as a parameter of its own.
ghost use Rattle.exports.specs.Saves.{FormatsBatch};

use crate::numbers::{batch_numbers, file_choice, put_answer};
use batch::format_batch;

// Formats the files of a buffer of frames: the table gets three numbers a file, the output the texts in a row. The choice: the width, the
// mode and the rule of width. `out` gets the refusal's number and place, or 0, the number of files and the bytes of their texts.
pub fn rrufthim_batch_s3(
    frames: &[u8],
    choice: &[u64; 3],
    table: &mut [u32],
    output: &mut [u8],
    out: &mut [u64; 3],
)
    ensures { FormatsBatch frames.now choice.now table.old output.old out.old table.new output.new out.new }
{
    let batch = format_batch(frames, table, output, file_choice(choice));
    put_answer(out, batch.map(batch_numbers));
}
