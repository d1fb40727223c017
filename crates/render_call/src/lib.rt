// Rendering calls: state, arguments, answer, and the call.
#![tactic(auto)]

pub mod call;
mod dry_run;
mod fits;
mod open;
mod refusal;
mod run;
pub mod width;

ghost use Rattle.render_call.specs.Calls.{to_state};
ghost use Rattle.render_call.specs.Whole.{RenderCalled, Draws, Checked, NeedsOfCall};
ghost use Rattle.render_call.specs.ByCall.{of_call};

use crate::call::Call;
use refusals::{Reason, Refused};
use renderer_rules::Pen;
use rowcheck::needs::Needs;
use rowcheck::weighing::rows_need;
use rows::texts::Rows;
use rows::units::{Bytes, Columns};

// How many rows a state lists at most.
pub const MAX_LISTED: usize = 256;

// `indent`, `next_indent` and `column`, marks in use, next row, width and rule of width (0: none yet), and how many rows are listed. The rows
// themselves are lent beside the state: a struct that held them would be copied at each call.
// kept: 0 and no Option: C lends the width and the rule of a state as numbers.
#[derive(Clone, Copy, Debug, Default, PartialEq, Eq)]
pub struct RenderState {
    pub pen: Pen,
    pub in_use: usize,
    pub row: usize,
    pub width: Columns,
    pub rule: usize,
    pub listed_rows: usize,
}

// The row to stop before, how many rows may be entered, the width, and the rule of width.
#[derive(Clone, Copy, Debug, PartialEq, Eq)]
pub struct RenderArgs {
    pub stop: usize,
    pub allotment: usize,
    pub width: Columns,
    pub rule: usize,
}

// What an accepted call gives: the new state, the bytes written, and how many rows were entered.
#[derive(Clone, Copy, Debug, PartialEq, Eq)]
pub struct Written {
    pub state: RenderState,
    pub bytes: Bytes,
    pub entered: usize,
}

// The same, with the greatest value that `column` was set to.
#[derive(Clone, Copy, Debug, PartialEq, Eq)]
pub struct Drawn {
    pub written: Written,
    pub widest: Columns,
}

impl Call<'_> {
    // A rendering call that 20, 1 to 3, 11, 12, 15, 22 and 23 do not refuse, whose rows need so much.
    fn render_needing(
        &self,
        store: &mut [u32],
        marks: &mut [u8],
        out: &mut [u8],
        listed: &mut [u32; MAX_LISTED],
        needs: Needs,
    ) -> Result<Drawn, Refused>
        requires checked { of_call Checked self.now listed.old store.old marks.old }
        requires needs { of_call NeedsOfCall self.now listed.old store.old needs }
        ensures { of_call Draws self.now listed.old store.old marks.old out.old listed.old result store.new marks.new out.new listed.new }
    {
        if marks.len() < needs.marks {
            return Err(Reason::MarksNeeded.at(needs.marks));
        }
        self.render_accepted(store, marks, out, listed, needs)
    }

    // The same where nothing has counted what they need.
    pub fn render_checked(
        &self,
        store: &mut [u32],
        marks: &mut [u8],
        out: &mut [u8],
        listed: &mut [u32; MAX_LISTED],
    ) -> Result<Drawn, Refused>
        requires { of_call Checked self.now listed.old store.old marks.old }
        ensures { of_call Draws self.now listed.old store.old marks.old out.old listed.old result store.new marks.new out.new listed.new }
    {
        let rows = Rows {
            store,
            source: self.source,
            image: self.image,
        };
        let needs = rows_need(rows, self.reads_from(listed), self.args.stop, self.margin());
        self.render_needing(store, marks, out, listed, needs)
    }
}

// A rendering call: renders rows from the state's next row towards a stop, as many as it may enter.
// kept: one parameter for each thing that C lends; the functions that this one calls take a `Call`.
pub fn render_call(
    source: &[u8],
    image: &[u8],
    store: &mut [u32],
    marks: &mut [u8],
    out: &mut [u8],
    listed: &mut [u32; MAX_LISTED],
    state: RenderState,
    args: RenderArgs,
) -> Result<Written, Refused>
    ensures { RenderCalled source.now image.now (to_state state listed.old) args store.old marks.old out.old listed.old result store.new marks.new out.new
        listed.new }
{
    let call = Call {
        source,
        image,
        state,
        args,
    };
    let needs = call.refusal(store, marks, listed)?;
    Ok(
        call.render_needing(store, marks, out, listed, needs)?
            .written,
    )
}
