// Request 5: an image from a list of steps, and the steps of an image.
// kept: the C interface: C hands over each buffer and array as a parameter of its own.
ghost use Rattle.exports.specs.Generator.{WritesImage, ListsSteps};

use crate::numbers::{bytes_numbers, put_answer};
use writer::{steps_of, write_image};

// Writes the image of a list of steps to the start of the output. `out` gets the refusal's number and place, or 0 and the image's bytes.
pub fn rrufthim_write_s3(steps: &[u8], output: &mut [u8], out: &mut [u64; 2])
    ensures { WritesImage steps.now output.old out.old output.new out.new }
{
    put_answer(out, write_image(steps, output).map(bytes_numbers));
}

// Writes the steps of an image to the start of the output. `out` gets the refusal's number and place, or 0 and the bytes of the steps.
pub fn rrufthim_steps_s3(source: &[u8], image: &[u8], output: &mut [u8], out: &mut [u64; 2])
    ensures { ListsSteps source.now image.now output.old out.old output.new out.new }
{
    put_answer(out, steps_of(source, image, output).map(bytes_numbers));
}
