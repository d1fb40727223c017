// Module 8: the whole run of one file, and of a frame that the program reads.
#![tactic(auto)]

pub mod reply;

ghost use Rattle.std.specs.Prelude.{◌≡◌, false, ℕ, ◌*◌, List, replicate};
ghost use Rattle.rows.specs.Places.{PLACES};
ghost use Rattle.cut_rule.specs.States.{render_fresh};
ghost use Rattle.layout_call.specs.Steps.{RuleFits, Reads};
ghost use Rattle.layout_call.specs.ByFile.{of_file};
ghost use Rattle.whole_run.specs.File.{file_rows, file_marks};
ghost use Rattle.render_call.specs.Calls.{to_state as rendered_state};
ghost use Rattle.file.specs.Whole.{to_choice, RunsFile, Formats, FormatsLent, FormatsFrame};

use choices::rule_chosen;
use image::bytes::num32;
use layout_call::accepted::Accepted;
use layout_call::modes::{NEW_MODE, OLD_MODE};
use layout_call::steps::count_declarations;
use layout_call::{LayoutArgs, LayoutState, layout_at_once};
use refusals::{Reason, Refused};
use render_call::call::Call;
use render_call::width::width_fits;
use render_call::{MAX_LISTED, RenderArgs, RenderState};
use rows::places::PLACES;
use rows::units::{Bytes, Columns};
use widths::rules::SUPPLIED;

// The longest frame that the program takes.
const MAX_FRAME: usize = 32768;

// What a run has of its own: 1,800 rows and 1,800 marks.
const ROWS: usize = 1800;

pub const CELLS: usize = ROWS * PLACES;

pub const MARKS: usize = 1800;

// `max` of fmt.rs: the width that the program and the report choose.
pub const REFERENCE_WIDTH: usize = 80;

/// What a caller chooses: the width, whether the comments that wait at the end are kept, and the rule that texts are measured by.
#[derive(Clone, Copy, Debug, PartialEq, Eq)]
pub struct FileChoice {
    pub width: Columns,
    pub mode: usize,
    pub rule: usize,
}

/// What the program and the report choose.
pub const REFERENCE_CHOICE: FileChoice = FileChoice {
    width: Columns(REFERENCE_WIDTH),
    mode: OLD_MODE,
    rule: SUPPLIED,
};

/// What a file that is accepted gives: the bytes written, the comments left, the rows and the group numbers.
#[derive(Clone, Copy, Debug, PartialEq, Eq)]
pub struct Text {
    pub bytes: Bytes,
    pub left: usize,
    pub rows: usize,
    pub numbers: usize,
}

/// The same of a run in rows and marks that are lent, with the greatest value that `column` was set to.
#[derive(Clone, Copy, Debug, PartialEq, Eq)]
pub struct Run {
    pub text: Text,
    pub widest: Columns,
}

/// Nothing is rendered yet.
pub fn render_fresh() -> RenderState
    ensures { (listed : List ℕ) → rendered_state result listed ≡ render_fresh }
{
    RenderState::default()
}

// The places of its rows.
pub fn rows() -> [u32; CELLS]
    ensures { result ≡ replicate (file_rows * PLACES) 0 }
{
    [0; CELLS]
}

// Its marks, all cleared.
pub fn marks() -> [u8; MARKS]
    ensures { result ≡ replicate file_marks 0 }
{
    [0; MARKS]
}

/// A file that is accepted, in rows and marks that are lent: all declarations in one layout call, for which no rows are counted first, and all rows in
/// one rendering call. It is no entry: where 8, 9 or 10 stops it, rows of it stand in the store.
pub fn run_file(
    file: Accepted<'_>,
    store: &mut [u32],
    marks: &mut [u8],
    out: &mut [u8],
    choice: FileChoice,
) -> Result<Run, Refused>
    requires rule { of_file RuleFits file choice.rule }
    requires read { of_file Reads file false }
    ensures { RunsFile file.entry.parsed.source.now file.entry.parsed.image.now (to_choice choice)
        store.old marks.old out.old result store.new marks.new out.new }
{
    if NEW_MODE < choice.mode {
        return Err(Reason::State.at(0));
    }
    if !width_fits(choice.width, Columns(0)) {
        return Err(Reason::Width.at(0));
    }
    let all = LayoutArgs {
        stop: count_declarations(file),
        close: true,
        mode: choice.mode,
        rule: choice.rule,
        archive: false,
    };
    let laid = layout_at_once(file, store, LayoutState::default(), all)?;
    // kept: field by field: a `Call` of rendering takes any source and image, as C lends them, and no `Accepted`.
    let call = Call {
        source: file.parsed.source,
        image: file.parsed.image,
        state: render_fresh(),
        args: RenderArgs {
            stop: laid.state.row,
            allotment: usize::MAX,
            width: choice.width,
            rule: choice.rule,
        },
    };
    let mut listed = [0; MAX_LISTED];
    let drawn = call.render_checked(store, marks, out, &mut listed)?;
    Ok(Run {
        text: Text {
            bytes: drawn.written.bytes,
            left: laid.left,
            rows: laid.state.row,
            numbers: laid.state.number,
        },
        widest: drawn.widest,
    })
}

// A file that is accepted, in 1,800 rows and marks, whatever they hold: layout writes the rows that it needs, and rendering clears the marks.
fn format_in(
    file: Accepted<'_>,
    store: &mut [u32; CELLS],
    used: &mut [u8; MARKS],
    out: &mut [u8],
    choice: FileChoice,
) -> Result<Text, Refused>
    requires rule { of_file RuleFits file choice.rule }
    requires read { of_file Reads file false }
    ensures { FormatsLent file.entry.parsed.source.now file.entry.parsed.image.now (to_choice choice)
        store.old used.old out.old result store.new used.new out.new }
{
    let run = run_file(file, store, used, out, choice)?;
    Ok(run.text)
}

// The same with rows and marks of its own: the rows of a file that 9 or 10 refuses can't be taken back out of a lent store.
fn format_accepted(file: Accepted<'_>, out: &mut [u8], choice: FileChoice) -> Result<Text, Refused>
    requires rule { of_file RuleFits file choice.rule }
    requires read { of_file Reads file false }
    ensures { Formats file.entry.parsed.source.now file.entry.parsed.image.now (to_choice choice) out.old result out.new }
{
    let mut store = rows();
    let mut used = marks();
    format_in(file, &mut store, &mut used, out, choice)
}

/// Formats a file as its caller chooses, or refuses to and leaves the output as it was.
pub fn format_file(
    source: &[u8],
    image: &[u8],
    out: &mut [u8],
    choice: FileChoice,
) -> Result<Text, Refused>
    ensures { Formats source.now image.now (to_choice choice) out.old result out.new }
{
    rule_chosen(image, choice.rule)?;
    let file = Accepted::check(source, image, false)?;
    format_accepted(file, out, choice)
}

/// The same in rows and marks that are lent, so that who formats many files clears them once.
pub fn format_lent(
    source: &[u8],
    image: &[u8],
    store: &mut [u32; CELLS],
    used: &mut [u8; MARKS],
    out: &mut [u8],
    choice: FileChoice,
) -> Result<Text, Refused>
    ensures { FormatsLent source.now image.now (to_choice choice) store.old used.old out.old result store.new used.new out.new }
{
    rule_chosen(image, choice.rule)?;
    let file = Accepted::check(source, image, false)?;
    format_in(file, store, used, out, choice)
}

/// Formats the file of a frame, as the program does: four bytes source length, source, image.
#[tactic(auto, using(crate::proofs::Frames::too_long, crate::proofs::Frames::too_short, crate::proofs::Frames::cut_off))]
pub fn format_frame(frame: &[u8], out: &mut [u8]) -> Result<Text, Refused>
    ensures { FormatsFrame frame.now out.old result out.new }
{
    if MAX_FRAME < frame.len() {
        return Err(Reason::Frame.at(0));
    }
    if frame.len() < 4 {
        return Err(Reason::Frame.at(0));
    }
    let size = num32(frame, 0);
    if frame.len() - 4 < size {
        return Err(Reason::Frame.at(0));
    }
    let end = 4 + size;
    format_file(&frame[4..end], &frame[end..], out, REFERENCE_CHOICE)
}
