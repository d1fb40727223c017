// Request 14: the image of the formula of a size at a place.
// kept: the C interface: C hands over each buffer and array as a parameter of its own.
ghost use Rattle.exports.specs.Formulas.{PutsFormula};

use crate::numbers::{bytes_numbers, put_answer};
use formula_images::write_formula;

// Writes the image of the formula at a place of those of a size to the start of the output. `out` gets the refusal's number and place, or 0 and
// the image's bytes.
pub fn rrufthim_formula_s3(size: u64, place: u64, output: &mut [u8], out: &mut [u64; 2])
    ensures { PutsFormula size place output.old out.old output.new out.new }
{
    let written = write_formula(size as usize, place as usize, output);
    put_answer(out, written.map(bytes_numbers));
}
