// Request 8: the columns of a text, for an editor that shows what is counted.
// kept: the C interface: C hands over each buffer and array as a parameter of its own.
ghost use Rattle.exports.specs.Measures.{MeasuresText};

use crate::numbers::{columns_numbers, put_answer};
use choices::text_columns;

// How many columns a text takes by a rule of width: where widths are supplied, as many as are told. `out` gets the refusal's number and place, or
// 0 and the columns.
pub fn rrufthim_columns_s3(text: &[u8], rule: u64, supplied: u64, out: &mut [u64; 2])
    ensures { MeasuresText text.now rule supplied out.old out.new }
{
    let columns = text_columns(text, rule as usize, supplied as usize);
    put_answer(out, columns.map(columns_numbers));
}
