// Refusal 12, as far as it is of rendering: a function for each group of tests; and 15, 22 and 23 after it.
ghost use Rattle.std.specs.Prelude.{◌≡◌, ◌*◌, ◌≤◌, not, length};
ghost use Rattle.refusals.specs.Refusals.{any};
ghost use Rattle.cut_rule.specs.Tests.{rows_in, row_tests, pen_tests, mark_tests, render_tests, allotment_tests, listed_tests};
ghost use Rattle.rows.specs.Places.{PLACES};
ghost use Rattle.rows.specs.View.{view_of};
ghost use Rattle.cut_rule.specs.Parts.{read_from};
ghost use Rattle.render_call.specs.Calls.{to_state, to_args, state_refusal};
ghost use Rattle.render_call.specs.Whole.{MarginOf};
ghost use Rattle.refusals.specs.Reasons.{refusal_in};

use crate::MAX_LISTED;
use crate::call::Call;
use crate::width::width_fits;
use choices::rule_fits;
use listed_rows::closing::closes_all;
use listed_rows::number::listed_row;
use listed_rows::those::lists_those;
use refusals::{Reason, Refused};
use renderer_rules::Pen;
use rows::limits::MAX_ROWS;
use rows::places::PLACES;

// "`indent` or `next_indent` over 384; column over 72,057,594,037,927,936".
const MAX_INDENT: usize = 384;

const MAX_COLUMN: usize = 72057594037927936;

// Whether the state's next row is within the store, not past the stop, and within its limit.
fn row_fits(row: usize, stop: usize, store: &[u32]) -> bool
    ensures { result ≡ not (any (row_tests (rows_in store.now) stop row)) }
{
    row <= store.len() / PLACES && row <= stop && row <= MAX_ROWS
}

// Whether `indent`, `next_indent` and `column` are within their limits.
fn pen_fits(pen: Pen) -> bool
    ensures { result ≡ not (any (pen_tests pen)) }
{
    pen.indent <= MAX_INDENT && pen.next_indent <= MAX_INDENT && pen.column.0 <= MAX_COLUMN
}

// Whether the marks in use are in the buffer, and each 0 or 1.
fn marks_fit(marks: &[u8], used: usize) -> bool
    ensures { result ≡ not (any (mark_tests marks.now used)) }
{
    used <= marks.len() && !marks[..used].iter().any(|mark| 1 < *mark)
}

// Whether some rows may be entered.
fn is_allotted(allotment: usize) -> bool
    ensures { result ≡ not (any (allotment_tests allotment)) }
{
    allotment != 0
}

impl Call<'_> {
    // Whether the state is one that this call may have.
    fn state_fits(&self, store: &[u32], marks: &[u8], listed: &[u32; MAX_LISTED]) -> bool
        ensures { result ≡ not (any (render_tests (to_args self.now.args 0) (to_state self.now.state listed.now) store.now marks.now)) }
    {
        row_fits(self.state.row, self.args.stop, store)
            && pen_fits(self.state.pen)
            && marks_fit(marks, self.state.in_use)
            && rule_fits(self.args.rule, self.state.rule)
    }

    // How many steps in the first line starts; 0 where 12 refuses the state by these.
    pub(crate) fn margin(&self) -> usize
        ensures { MarginOf self.now.state.pen result }
    {
        let pen = self.state.pen;
        if pen.indent <= MAX_INDENT && pen.next_indent <= MAX_INDENT {
            return pen.indent + pen.next_indent;
        }
        0
    }

    // The row that is read from: the first listed row or the next row, the earlier.
    pub(crate) fn reads_from(&self, listed: &[u32; MAX_LISTED]) -> usize
        ensures { result ≡ read_from (to_state self.now.state listed.now) }
    {
        if self.state.listed_rows == 0 {
            return self.state.row;
        }
        self.state.row.min(listed_row(listed[0]))
    }

    // Whether the rows listed are those that they must be, and can be closed.
    fn listed_fits(&self, store: &[u32], listed: &[u32; MAX_LISTED]) -> bool
        requires { self.now.state.row * PLACES ≤ length store.now }
        ensures { result ≡ not (any (listed_tests (view_of store.now) (to_state self.now.state listed.now))) }
    {
        let count = self.state.listed_rows;
        count <= MAX_LISTED
            && lists_those(store, &listed[..count], self.state.row)
            && closes_all(store, &listed[..count], self.state.pen)
    }

    // Refusals 12, 15, 22 and 23.
    pub(crate) fn state_refusal(
        &self,
        store: &[u32],
        marks: &[u8],
        listed: &[u32; MAX_LISTED],
    ) -> Result<(), Refused>
        ensures { refusal_in result ≡ state_refusal self.now.args (to_state self.now.state listed.now) store.now marks.now }
    {
        if !self.state_fits(store, marks, listed) {
            return Err(Reason::State.at(0));
        }
        if !width_fits(self.args.width, self.state.width) {
            return Err(Reason::Width.at(0));
        }
        if !is_allotted(self.args.allotment) {
            return Err(Reason::Allotment.at(0));
        }
        if !self.listed_fits(store, listed) {
            return Err(Reason::Listed.at(0));
        }
        Ok(())
    }
}
