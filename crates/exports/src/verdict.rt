// Request 11: whether a tree's text would be read back as another tree.
// kept: the C interface: C hands over each buffer and array as a parameter of its own.
ghost use Rattle.exports.specs.Verdict.{SaysVerdict};

use crate::numbers::{put_answer, verdict_numbers};
use readback::reads_back;

// Whether the tree of an image reads back the same, by the precedences of Roto's parser. `out` gets the refusal's number and place; or 0, 1 and 0
// where it does; or 0, 0 and the offset of the first operand that breaks a rule.
pub fn rrufthim_reads_back_s3(source: &[u8], image: &[u8], out: &mut [u64; 3])
    ensures { SaysVerdict source.now image.now out.old out.new }
{
    put_answer(out, reads_back(source, image).map(verdict_numbers));
}
