// The sum over a text's characters, by a table.
ghost use Rattle.std.specs.Prelude.{◌≡◌, ◌≤◌, length};
ghost use Rattle.widths.specs.Widths.{Usable, table_width, text_width, Plain};

use crate::lookup::{Entry, width_in};
use rows::units::Columns;
use text::utf8::char_at;

// The first code point that a table may have a range for.
const FIRST_RANGE: u32 = 0x0300;

// How many bytes at a text's start are below 0x80: each is a character of one column.
pub(crate) fn plain_end(text: &[u8]) -> usize
    ensures { Plain text.now result }
{
    text.iter()
        .position(|byte| 0x80 <= *byte)
        .unwrap_or(text.len())
}

// The width of a code point; what is below every range needs no search.
#[tactic(auto, using(crate::proofs::Narrow::one_column))]
fn columns_in(table: &[Entry], code: u32) -> usize
    requires { Usable table.now }
    ensures { result ≡ table_width table.now code }
{
    if code < FIRST_RANGE {
        return 1;
    }
    width_in(table, code) as usize
}

// How many columns a text takes, by a table. Of one that isn't well-formed, what stands before its first bad sequence.
pub fn text_columns(table: &[Entry], text: &[u8]) -> Columns
    requires { Usable table.now }
    ensures { (result.0 ≡ text_width (table_width table.now) text.now) × (result.0 ≤ length text.now) }
{
    let mut at = plain_end(text);
    let mut sum = at;
    while let Some(c) = char_at(text, at) {
        sum += columns_in(table, c.code);
        at += c.bytes;
    }
    Columns(sum)
}
