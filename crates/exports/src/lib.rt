// The functions for other languages: numbers and slices in, numbers out. exports_c hands them out under the C calling convention, by the same
// names: symbols that end in the number of their shape. tools/raise-shape raises it when a parameter or an array changes, so that nothing older
// is linked.
// kept: the C interface: C hands over each buffer and array as a parameter of its own.
#![tactic(auto)]

pub mod archive;
pub mod formula;
pub mod generator;
pub mod measures;
mod numbers;
pub mod saves;
pub mod verdict;

ghost use Rattle.std.specs.Prelude.{◌≡◌, false, [], ◌∷◌, length};
ghost use Rattle.std.proofs.lemmas.List.Edits.{sets};
ghost use Rattle.refusals.specs.Reasons.{answer_of};
ghost use Rattle.text.specs.Newlines.{count_newlines};
ghost use Rattle.image.specs.Read.{read_all, outcome};
ghost use Rattle.whole_run.specs.Built.{declared};
ghost use Rattle.exports.specs.Numbers.{told_newlines, told_in, told_document};
ghost use Rattle.exports.specs.Calls.{ChecksFile, CountsFile, Lays, Renders, FormatsFile};

use crate::numbers::{
    counted_numbers, file_choice, laid_numbers, layout_args, layout_state, put_answer, put_listed,
    render_args, render_list, render_state, tallies_from, text_numbers, written_numbers,
};
use figures::count_file;
use file::format_file;
use layout_call::accepted::Accepted;
use layout_call::layout_call;
use layout_call::steps::count_declarations;
use refusals::Refused;
use render_call::render_call;
use text::newlines::count_newlines;

// The number of comments, the tree's offset and the number of declarations of a source and an image that are accepted.
fn document_numbers(source: &[u8], image: &[u8]) -> Result<[u64; 3], Refused>
    ensures { answer_of (λ l. l) result ≡ told_in (told_document (length (declared source.now image.now))) (outcome (read_all source.now image.now)) }
{
    let file = Accepted::check(source, image, false)?;
    Ok([
        file.doc.comments as u64,
        file.doc.tree as u64,
        count_declarations(file) as u64,
    ])
}

// Whether a source and an image are accepted. `out` gets the refusal's number and place, or 0, the number of comments, the tree's offset and
// the number of declarations.
pub fn rrufthim_check_s3(source: &[u8], image: &[u8], out: &mut [u64; 4])
    ensures { ChecksFile source.now image.now out.old out.new }
{
    put_answer(out, document_numbers(source, image));
}

// A layout call. The state: begun, closed, next declaration, next row, next number, comments placed, position, mode, rule. The arguments:
// the declaration to stop before, whether to close, the mode, and the rule of width. `out` gets the refusal's number and place, or 0, the
// comments left and the new state. A comment that starts before the end of the one before is refused by 7 (archive.rt has the archive entry).
pub fn rrufthim_layout_s3(
    source: &[u8],
    image: &[u8],
    store: &mut [u32],
    state: &[u64; 9],
    args: &[u64; 4],
    out: &mut [u64; 11],
)
    ensures { Lays false source.now image.now store.old state.now args.now out.old store.new out.new }
{
    let call = layout_args(args, false);
    let laid = layout_call(source, image, store, layout_state(state), call);
    put_answer(out, laid.map(laid_numbers));
}

// A rendering call. The state: indent, next indent, column, marks in use, next row, width, rule, how many rows are listed, and up to 256 listed
// rows. The arguments: the row to stop before, the width, the rule of width, and how many rows may be entered. `out` gets the refusal's number and
// place, or 0, the bytes written, the rows entered, and the new state as far as rows are listed.
pub fn rrufthim_render_s3(
    source: &[u8],
    image: &[u8],
    store: &mut [u32],
    marks: &mut [u8],
    output: &mut [u8],
    state: &[u64; 264],
    args: &[u64; 4],
    out: &mut [u64; 267],
)
    ensures { Renders source.now image.now store.old marks.old output.old state.now args.now out.old store.new marks.new output.new out.new }
{
    let mut listed = render_list(state);
    let from = render_state(state);
    let to = render_args(args);
    let written = render_call(source, image, store, marks, output, &mut listed, from, to);
    put_answer(out, written.map(written_numbers));
    if let Ok(written) = written {
        put_listed(out, &listed, written.state.listed_rows);
    }
}

// The run of one file: all is laid out and rendered, in rows and marks of its own. The choice: the width, the mode and the rule of width. `out`
// gets the refusal's number and place, or 0, the bytes written, the comments left, the rows and the group numbers.
pub fn rrufthim_format_s3(
    source: &[u8],
    image: &[u8],
    choice: &[u64; 3],
    output: &mut [u8],
    out: &mut [u64; 5],
)
    ensures { FormatsFile source.now image.now choice.now output.old out.old output.new out.new }
{
    let text = format_file(source, image, output, file_choice(choice));
    put_answer(out, text.map(text_numbers));
}

// The newlines of a range of the source, UTF-8 or not. `out` gets how many there are and the place of the last, or the range's end if there is
// none; none is counted where the range is outside the source, reversed or off a boundary.
pub fn rrufthim_newlines_s3(source: &[u8], start: u64, end: u64, out: &mut [u64; 2])
    ensures { out.new ≡ sets out.old 0 (told_newlines (count_newlines source.now start end)) }
{
    let found = count_newlines(source, start as usize, end as usize);
    *out = [found.count as u64, found.place as u64];
}

// Counts a file with those before it: its figures, the new tallies, and wrapped over given. The tallies: how many files, then bytes, newlines,
// column, given, wrapped, placed, left. `out` gets the refusal's number and place, or 0, the seven figures, the eight tallies, and the
// fraction's two numbers.
pub fn rrufthim_count_s3(source: &[u8], image: &[u8], tallies: &[u64; 8], out: &mut [u64; 18])
    ensures { CountsFile source.now image.now tallies.now out.old out.new }
{
    let counted = count_file(source, image, tallies_from(tallies));
    put_answer(out, counted.map(counted_numbers));
}
