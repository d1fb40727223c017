// Numbers in and out of the arrays that the exported functions are lent.
// kept: functions and no `From`: the types are of crates below, which know nothing of C's arrays.
ghost use Rattle.std.specs.Prelude.{◌≡◌, ◌≤◌, ◌<◌, [], ◌∷◌, length, take};
ghost use Rattle.std.proofs.lemmas.List.Edits.{sets};
ghost use Rattle.refusals.specs.Answers.{numbers_of};
ghost use Rattle.refusals.specs.Reasons.{answer_of};
ghost use Rattle.exports.specs.Numbers.{layout_state, layout_args, render_state, render_list, render_args, file_choice, tallies_from};
ghost use Rattle.readback.specs.Verdict.{told_verdict};
ghost use Rattle.exports.specs.Given.{laid_numbers, written_numbers, text_numbers, counted_numbers, batch_numbers};

use batch::Batch;
use figures::Counted;
use file::{FileChoice, Text};
use layout_call::{Laid, LayoutArgs, LayoutState};
use readback::Verdict;
use refusals::Refused;
use render_call::{MAX_LISTED, RenderArgs, RenderState, Written};
use renderer_rules::Pen;
use rows::units::Columns;
use tallies::{Figures, Tallies};

// The numbers of a state before its listed rows, and those of an answer before them.
pub(crate) const STATE_FRONT: usize = 8;

pub(crate) const ANSWER_FRONT: usize = 11;

// How many numbers a state has, and its answer.
pub(crate) const STATE: usize = STATE_FRONT + MAX_LISTED;

pub(crate) const STATE_ANSWER: usize = ANSWER_FRONT + MAX_LISTED;

// A listed row over it stands for it: no row that 11 and 12 let pass has a number that large.
const NO_LISTED: u64 = 4_294_967_295;

// A flag is yes for every number but 0.
pub(crate) fn layout_state(from: &[u64; 9]) -> LayoutState
    ensures { result ≡ layout_state from.now }
{
    LayoutState {
        begun: from[0] != 0,
        closed: from[1] != 0,
        declaration: from[2] as usize,
        row: from[3] as usize,
        number: from[4] as usize,
        placed: from[5] as usize,
        position: from[6] as usize,
        mode: from[7] as usize,
        rule: from[8] as usize,
    }
}

pub(crate) fn layout_args(from: &[u64; 4], archive: bool) -> LayoutArgs
    ensures { result ≡ layout_args archive from.now }
{
    LayoutArgs {
        stop: from[0] as usize,
        close: from[1] != 0,
        mode: from[2] as usize,
        rule: from[3] as usize,
        archive,
    }
}

pub(crate) fn render_state(from: &[u64; STATE]) -> RenderState
    ensures { result ≡ render_state from.now }
{
    RenderState {
        pen: Pen {
            indent: from[0] as usize,
            next_indent: from[1] as usize,
            column: Columns(from[2] as usize),
        },
        in_use: from[3] as usize,
        row: from[4] as usize,
        width: Columns(from[5] as usize),
        rule: from[6] as usize,
        listed_rows: from[7] as usize,
    }
}

// Its listed rows, as many as it counts.
pub(crate) fn render_list(from: &[u64; STATE]) -> [u32; MAX_LISTED]
    ensures { result ≡ render_list from.now }
{
    let count = from[7].min(MAX_LISTED as u64) as usize;
    let mut listed = [0; MAX_LISTED];
    for place in 0..count {
        listed[place] = from[STATE_FRONT + place].min(NO_LISTED) as u32;
    }
    listed
}

pub(crate) fn render_args(from: &[u64; 4]) -> RenderArgs
    ensures { result ≡ render_args from.now }
{
    RenderArgs {
        stop: from[0] as usize,
        allotment: from[3] as usize,
        width: Columns(from[1] as usize),
        rule: from[2] as usize,
    }
}

pub(crate) fn file_choice(from: &[u64; 3]) -> FileChoice
    ensures { result ≡ file_choice from.now }
{
    FileChoice {
        width: Columns(from[0] as usize),
        mode: from[1] as usize,
        rule: from[2] as usize,
    }
}

// Tallies: how many files, then their figures together.
pub(crate) fn tallies_from(l: &[u64; 8]) -> Tallies
    ensures { result ≡ tallies_from l.now }
{
    Tallies {
        files: l[0] as usize,
        all: Figures {
            bytes: l[1] as usize,
            newlines: l[2] as usize,
            column: l[3] as usize,
            given: l[4] as usize,
            wrapped: l[5] as usize,
            placed: l[6] as usize,
            left: l[7] as usize,
        },
    }
}

// Puts an answer at the start of an array: the refusal's number and place, or 0 and the numbers of what is given.
pub(crate) fn put_answer<const N: usize>(out: &mut [u64], answer: Result<[u64; N], Refused>)
    requires refused { 1 < length out.old }
    requires given { N < length out.old }
    ensures { out.new ≡ numbers_of (λ l. l) (answer_of (λ l. l) answer.entry) out.old }
{
    match answer {
        Ok(given) => {
            out[0] = 0;
            out[1..=N].copy_from_slice(&given);
        }
        Err(refused) => {
            out[0] = u64::from(refused.number());
            out[1] = refused.place as u64;
        }
    }
}

// Puts an accepted state's listed rows behind an answer's other numbers.
pub(crate) fn put_listed(out: &mut [u64; STATE_ANSWER], listed: &[u32; MAX_LISTED], count: usize)
    requires few { count ≤ length listed.now }
    ensures { out.new ≡ sets out.old ANSWER_FRONT (take count listed.now) }
{
    for place in 0..count {
        out[ANSWER_FRONT + place] = u64::from(listed[place]);
    }
}

// What a layout call that is accepted tells.
pub(crate) fn laid_numbers(laid: Laid) -> [u64; 10]
    ensures { result ≡ laid_numbers laid }
{
    let state = laid.state;
    [
        laid.left as u64,
        u64::from(state.begun),
        u64::from(state.closed),
        state.declaration as u64,
        state.row as u64,
        state.number as u64,
        state.placed as u64,
        state.position as u64,
        state.mode as u64,
        state.rule as u64,
    ]
}

// What a rendering call that is accepted tells, before its listed rows.
pub(crate) fn written_numbers(written: Written) -> [u64; 10]
    ensures { result ≡ written_numbers written }
{
    let state = written.state;
    [
        written.bytes.0 as u64,
        written.entered as u64,
        state.pen.indent as u64,
        state.pen.next_indent as u64,
        state.pen.column.0 as u64,
        state.in_use as u64,
        state.row as u64,
        state.width.0 as u64,
        state.rule as u64,
        state.listed_rows as u64,
    ]
}

// What the run of a file that is accepted tells.
pub(crate) fn text_numbers(text: Text) -> [u64; 4]
    ensures { result ≡ text_numbers text }
{
    [
        text.bytes.0 as u64,
        text.left as u64,
        text.rows as u64,
        text.numbers as u64,
    ]
}

// What the writer of images and the steps of an image tell.
pub(crate) fn bytes_numbers(bytes: usize) -> [u64; 1]
    ensures { result ≡ bytes ∷ [] }
{
    [bytes as u64]
}

// What the columns of a text tell.
pub(crate) fn columns_numbers(columns: Columns) -> [u64; 1]
    ensures { result ≡ columns.0 ∷ [] }
{
    [columns.0 as u64]
}

// What a batch tells.
pub(crate) fn batch_numbers(batch: Batch) -> [u64; 2]
    ensures { result ≡ batch_numbers batch }
{
    [batch.files as u64, batch.bytes as u64]
}

// What the verdict on a tree tells.
pub(crate) fn verdict_numbers(verdict: Verdict) -> [u64; 2]
    ensures { result ≡ told_verdict verdict }
{
    match verdict {
        Verdict::Same => [1, 0],
        Verdict::Differs(at) => [0, at as u64],
    }
}

// What a file that is counted tells.
pub(crate) fn counted_numbers(counted: Counted) -> [u64; 17]
    ensures { result ≡ counted_numbers counted }
{
    let f = counted.figures;
    let all = counted.tallies.all;
    [
        f.bytes as u64,
        f.newlines as u64,
        f.column as u64,
        f.given as u64,
        f.wrapped as u64,
        f.placed as u64,
        f.left as u64,
        counted.tallies.files as u64,
        all.bytes as u64,
        all.newlines as u64,
        all.column as u64,
        all.given as u64,
        all.wrapped as u64,
        all.placed as u64,
        all.left as u64,
        counted.wrapped.over as u64,
        counted.wrapped.under as u64,
    ]
}
