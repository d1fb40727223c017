// Layout calls: state, arguments, answer, and the call.
#![tactic(auto)]

pub mod accepted;
mod answer;
mod call;
mod closing;
mod fits;
pub mod modes;
mod room;
pub mod steps;

ghost use Rattle.std.specs.Prelude.{◌≡◌, not};
ghost use Rattle.layout_call.specs.Steps.{RuleFits, Reads, unfit};
ghost use Rattle.layout_call.specs.Whole.{LayoutCalled, LaidAtOnce};
ghost use Rattle.layout_call.specs.ByFile.{of_file};

use crate::accepted::Accepted;
use crate::call::Call;
use crate::fits::{Within, state_fits};
use crate::steps::count_declarations;
use choices::rule_chosen;
use refusals::{Reason, Refused};
use rows::places::PLACES;

// Begun, closed, next declaration, next row, next number, comments placed, position, mode, rule of width (0: none yet).
// kept: numbers of 64 bits, and no `Cursor` of acts, whose numbers are of 32: C lends any, and 12 refuses what is too large.
#[derive(Clone, Copy, Debug, Default, PartialEq, Eq)]
pub struct LayoutState {
    pub begun: bool,
    pub closed: bool,
    pub declaration: usize,
    pub row: usize,
    pub number: usize,
    pub placed: usize,
    pub position: usize,
    pub mode: usize,
    pub rule: usize,
}

// The declaration to stop before, whether to close, the mode (modes.rt), the rule of width, and whether the call is the archive entry's, which
// reads comments that run backwards.
#[derive(Clone, Copy, Debug, PartialEq, Eq)]
pub struct LayoutArgs {
    pub stop: usize,
    pub close: bool,
    pub mode: usize,
    pub rule: usize,
    pub archive: bool,
}

/// What an accepted call gives: the new state, and the comments left.
#[derive(Clone, Copy, Debug, PartialEq, Eq)]
pub struct Laid {
    pub state: LayoutState,
    pub left: usize,
}

// Whether 12 lets the state pass.
fn call_fits(file: Accepted<'_>, state: LayoutState, args: LayoutArgs, store: &[u32]) -> bool
    ensures { result ≡ not (of_file unfit file.entry state args store.now) }
{
    let within = Within {
        declarations: count_declarations(file),
        comments: file.doc.comments,
        size: file.parsed.source.len(),
        rows: store.len() / PLACES,
    };
    state_fits(state, args, within)
}

/// A call on a source and an image that its entry accepts, by a rule that 20 does not refuse.
pub fn layout_accepted(
    file: Accepted<'_>,
    store: &mut [u32],
    state: LayoutState,
    args: LayoutArgs,
) -> Result<Laid, Refused>
    requires rule { of_file RuleFits file args.rule }
    requires read { of_file Reads file args.archive }
    ensures { of_file LayoutCalled file.entry state args store.old result store.new }
{
    if !call_fits(file, state, args, store) {
        return Err(Reason::State.at(0));
    }
    let call = Call { file, state, args };
    if let Some(needed) = call.rows_missing(store.len() / PLACES) {
        return Err(Reason::RowsNeeded.at(needed));
    }
    call.laid(store)
}

/// The same in a store of the caller's own, for which nothing is counted first: where 8 refuses, the rows that have room stand in it.
pub fn layout_at_once(
    file: Accepted<'_>,
    store: &mut [u32],
    state: LayoutState,
    args: LayoutArgs,
) -> Result<Laid, Refused>
    requires rule { of_file RuleFits file args.rule }
    requires read { of_file Reads file args.archive }
    ensures { of_file LaidAtOnce file.entry state args store.old result store.new }
{
    if !call_fits(file, state, args, store) {
        return Err(Reason::State.at(0));
    }
    let call = Call { file, state, args };
    call.laid(store)
}

/// Lays a document out from its next declaration up to a stop, and closes it or not; or refuses to, and leaves the store as it was.
pub fn layout_call(
    source: &[u8],
    image: &[u8],
    store: &mut [u32],
    state: LayoutState,
    args: LayoutArgs,
) -> Result<Laid, Refused>
    ensures { LayoutCalled source.now image.now state args store.old result store.new }
{
    rule_chosen(image, args.rule)?;
    let file = Accepted::check(source, image, args.archive)?;
    layout_accepted(file, store, state, args)
}
