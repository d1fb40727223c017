// Cells of ten columns.
ghost use Rattle.std.specs.Prelude.{◌≡◌, ◌∷◌, ◌++◌, ◌+◌, ◌*◌, ◌≤◌, length};
ghost use Rattle.lines.specs.Lines.{decimal};
ghost use Rattle.report_lines.specs.Table.{BLANK, cell, cells, in_order};

use crate::{LINE_ROOM, Line};
use itoa::Buffer;
use lines::DIGITS;
use tallies::Figures;

const COLUMNS: usize = 10;

// Seven cells, each with a blank before it.
pub(crate) const FIGURES_ROOM: usize = 147;

// Appends a text, set to the right in ten columns. No text of a cell is longer than a number of 64 bits.
// kept: blanks in a loop. `write!` with a width counts characters, no bytes, and promises what it wrote only where it answers `Ok`.
#[tactic(auto, unfolding(crate::specs::Table::cell))]
pub(crate) fn put_cell(line: &mut Line, text: &str)
    requires text { length text.now ≤ DIGITS }
    requires room { length line.old.bytes + DIGITS ≤ LINE_ROOM }
    ensures bytes { line.new.bytes ≡ line.old.bytes ++ cell text.now }
    ensures len { length line.new.bytes ≤ length line.old.bytes + DIGITS }
{
    for _ in text.len()..COLUMNS {
        line.push(' ');
    }
    line.push_str(text);
}

// Appends a number in ten columns.
#[tactic(auto, using(lines::proofs::Lines::same_decimal, lines::proofs::Lines::decimal_short))]
pub(crate) fn put_number(line: &mut Line, n: usize)
    requires { length line.old.bytes + DIGITS ≤ LINE_ROOM }
    ensures bytes { line.new.bytes ≡ line.old.bytes ++ cell (decimal n) }
    ensures len { length line.new.bytes ≤ length line.old.bytes + DIGITS }
{
    put_cell(line, Buffer::new().format(n));
}

// Appends seven figures, a blank before each.
pub(crate) fn put_figures(line: &mut Line, f: Figures)
    requires { length line.old.bytes + FIGURES_ROOM ≤ LINE_ROOM }
    ensures bytes { line.new.bytes ≡ line.old.bytes ++ cells (in_order f) }
    ensures len { length line.new.bytes ≤ length line.old.bytes + FIGURES_ROOM }
{
    for n in f.in_order() {
        line.push_str(" ");
        put_number(line, n);
    }
}
