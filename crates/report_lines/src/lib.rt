// The lines of the report.
#![tactic(auto)]

mod cells;

ghost use Rattle.std.specs.Prelude.{◌≡◌, length, ◌+◌, ◌≤◌, ◌<◌, ◌++◌};
ghost use Rattle.rows.specs.Ascii.{bytes};
ghost use Rattle.refusals.specs.Reasons.{refusal};
ghost use Rattle.lines.specs.Lines.{decimal};
ghost use Rattle.report_lines.specs.Table.{heads_line, file_line, refused_file_line, ends_inside_line, totals_line, fraction_line, last_lines};

use crate::cells::{FIGURES_ROOM, put_cell, put_figures, put_number};
use arrayvec::ArrayString;
use lines::{DIGITS, REFUSED_ROOM, put_decimal_in, refused_line_of};
use refusals::Refused;
use tallies::lowest::reduced;
use tallies::{Figures, Fraction, Tallies};

/// Room for every line, and for the last ones together: eight cells of 20 digits, the blanks between and the newline are 168 bytes, and the
/// four last lines 372.
pub const LINE_ROOM: usize = 512;

/// A line, or several, under construction.
pub type Line = ArrayString<LINE_ROOM>;

// A line of columns: the first cell, the figures and the newline.
const COLUMNS_ROOM: usize = 168;

// A line of words with one number.
const WORDS_ROOM: usize = 64;

// The line of the fraction: 36 bytes of words and newline, and two numbers.
const FRACTION_ROOM: usize = 76;

/// The line of heads.
#[tactic(auto, unfolding(rows::specs::Ascii::bytes, crate::specs::Table::cell, crate::specs::Table::cells, crate::specs::Table::heads_line))]
pub fn heads_line() -> &'static str
    ensures { result.now ≡ heads_line }
{
    "      file      bytes   newlines     column      given    wrapped     placed       left\n"
}

/// The line of a file that is counted.
#[tactic(auto, unfolding(rows::specs::Ascii::bytes))]
pub fn file_line(file: usize, f: Figures) -> Line
    ensures { result.bytes ≡ file_line file f }
{
    let mut line = Line::new();
    put_number(&mut line, file);
    put_figures(&mut line, f);
    line.push('\n');
    line
}

/// The line of a refused file, of the refusal's number and place.
#[tactic(auto, unfolding(rows::specs::Ascii::bytes))]
pub fn refused_file_line_of(file: usize, number: u8, place: usize) -> Line
    ensures { result.bytes ≡ refused_file_line file (record { number = number; place = place }) }
{
    let mut line = Line::new();
    put_number(&mut line, file);
    line.push(' ');
    line.push_str(refused_line_of(number, place).as_str());
    line
}

/// The line of a refused file.
pub fn refused_file_line(file: usize, refused: Refused) -> Line
    ensures { result.bytes ≡ refused_file_line file (refusal refused) }
{
    refused_file_line_of(file, refused.number(), refused.place)
}

// Appends words, a number and a newline.
#[tactic(auto, unfolding(rows::specs::Ascii::bytes))]
fn put_count(line: &mut Line, words: &str, n: usize)
    requires words { length words.now + DIGITS < WORDS_ROOM }
    requires room { length line.old.bytes + WORDS_ROOM ≤ LINE_ROOM }
    ensures bytes { line.new.bytes ≡ line.old.bytes ++ (words.now ++ decimal n ++ bytes "\n") }
    ensures len { length line.new.bytes ≤ length line.old.bytes + WORDS_ROOM }
{
    line.push_str(words);
    put_decimal_in(line, n, DIGITS);
    line.push('\n');
}

/// The line of an input that ends inside a file.
#[tactic(auto, unfolding(rows::specs::Ascii::bytes))]
pub fn ends_inside_line(file: usize) -> Line
    ensures { result.bytes ≡ ends_inside_line file }
{
    let mut line = Line::new();
    put_count(&mut line, "the input ends inside file ", file);
    line
}

// Appends the line of totals.
#[tactic(auto, unfolding(rows::specs::Ascii::bytes))]
fn put_totals(line: &mut Line, all: Figures)
    requires { length line.old.bytes + COLUMNS_ROOM ≤ LINE_ROOM }
    ensures bytes { line.new.bytes ≡ line.old.bytes ++ totals_line all }
    ensures len { length line.new.bytes ≤ length line.old.bytes + COLUMNS_ROOM }
{
    put_cell(line, "total");
    put_figures(line, all);
    line.push('\n');
}

// Appends the line of the fraction.
#[tactic(auto, unfolding(rows::specs::Ascii::bytes))]
fn put_fraction(line: &mut Line, q: Fraction)
    requires { length line.old.bytes + FRACTION_ROOM ≤ LINE_ROOM }
    ensures bytes { line.new.bytes ≡ line.old.bytes ++ fraction_line q }
    ensures len { length line.new.bytes ≤ length line.old.bytes + FRACTION_ROOM }
{
    line.push_str("wrapped over given, reduced: ");
    put_decimal_in(line, q.over, DIGITS);
    line.push_str(" over ");
    put_decimal_in(line, q.under, DIGITS);
    line.push('\n');
}

/// The lines below those of the files: totals, files counted, files refused, and the fraction.
#[tactic(auto, unfolding(rows::specs::Ascii::bytes, crate::specs::Table::last_lines))]
pub fn last_lines(t: Tallies, refused: usize) -> Line
    ensures { result.bytes ≡ last_lines t refused }
{
    let mut lines = Line::new();
    put_totals(&mut lines, t.all);
    put_count(&mut lines, "files counted: ", t.files);
    put_count(&mut lines, "files refused: ", refused);
    put_fraction(&mut lines, reduced(t.all.wrapped, t.all.given));
    lines
}

#[cfg(test)]
mod tests {
    use super::*;
    use refusals::Reason;

    // docs/REPORT.md: the file's number in ten columns, a blank, and the program's line.
    #[test]
    fn writes_refused_files(rt: HostRuntime) {
        assert_eq!(rt;
            refused_file_line(7, Reason::Frame.at(0)).as_str(),
            "         7 refused 13 at 0\n"
        );
    }
}
