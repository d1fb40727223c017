// For archives. Request 9: an image moved from version 1 to version 2, and back. Request 10: the layout call that reads by the earlier rule.
// kept: the C interface: C hands over each buffer and array as a parameter of its own.
ghost use Rattle.std.specs.Prelude.{true};
ghost use Rattle.exports.specs.Archive.{MovesForward, MovesBack};
ghost use Rattle.exports.specs.Calls.{Lays};

use crate::numbers::{bytes_numbers, laid_numbers, layout_args, layout_state, put_answer};
use layout_call::layout_call;
use moves::{back, forward};

// Writes an image of version 1 as one of version 2 to the start of the output. `out` gets the refusal's number and place, or 0 and the bytes of
// the image that is written.
pub fn rrufthim_forward_s3(source: &[u8], image: &[u8], output: &mut [u8], out: &mut [u64; 2])
    ensures { MovesForward source.now image.now output.old out.old output.new out.new }
{
    put_answer(out, forward(source, image, output).map(bytes_numbers));
}

// Writes an image of version 2 as one of version 1, with the widths of Unicode 16.0, to the start of the output. `out` gets the refusal's number
// and place, or 0 and the bytes of the image that is written.
pub fn rrufthim_back_s3(source: &[u8], image: &[u8], output: &mut [u8], out: &mut [u64; 2])
    ensures { MovesBack source.now image.now output.old out.old output.new out.new }
{
    put_answer(out, back(source, image, output).map(bytes_numbers));
}

// The archive entry: a layout call like `rrufthim_layout`, with the same state, arguments and answer, that reads a comment list by the earlier
// rule, so that comments may overlap and run backwards. A list of calls may mix both.
pub fn rrufthim_layout_archived_s3(
    source: &[u8],
    image: &[u8],
    store: &mut [u32],
    state: &[u64; 9],
    args: &[u64; 4],
    out: &mut [u64; 11],
)
    ensures { Lays true source.now image.now store.old state.now args.now out.old store.new out.new }
{
    let call = layout_args(args, true);
    let laid = layout_call(source, image, store, layout_state(state), call);
    put_answer(out, laid.map(laid_numbers));
}
