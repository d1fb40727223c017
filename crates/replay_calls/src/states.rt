// Stored states.
ghost use Rattle.std.specs.Prelude.{◌≤◌};

use layout_call::LayoutState;
use render_call::{MAX_LISTED, RenderState};
use renderer_rules::Pen;
use rows::units::Columns;
use stored_answers::compare::{fill, is_next};
use stored_answers::numbers::Reader;

pub(crate) fn layout_state(answers: &mut Reader) -> LayoutState {
    LayoutState {
        begun: answers.byte() != 0,
        closed: answers.byte() != 0,
        declaration: answers.long(),
        row: answers.long(),
        number: answers.long(),
        placed: answers.long(),
        position: answers.long(),
        mode: answers.long(),
        rule: answers.long(),
    }
}

// A rendering state: its numbers, and where the rows that it lists are stored.
#[derive(Clone, Copy)]
pub(crate) struct Listed<'a> {
    pub state: RenderState,
    rows: Reader<'a>,
}

// How many rows are stored of a state that counts so many.
fn stored_rows(state: RenderState) -> usize
    ensures { result ≤ 256 }
{
    state.listed_rows.min(MAX_LISTED)
}

pub(crate) fn render_state<'a>(answers: &mut Reader<'a>) -> Listed<'a> {
    let state = RenderState {
        pen: Pen {
            indent: answers.long(),
            next_indent: answers.long(),
            column: Columns(answers.eight()),
        },
        in_use: answers.long(),
        row: answers.long(),
        width: Columns(answers.long()),
        rule: answers.long(),
        listed_rows: answers.long(),
    };
    let rows = *answers;
    answers.skip(4 * stored_rows(state));
    Listed { state, rows }
}

impl Listed<'_> {
    // Fills the list that is lent beside the state.
    pub(crate) fn fill(&self, list: &mut [u32; MAX_LISTED]) {
        let mut rows = self.rows;
        fill(&mut list[..stored_rows(self.state)], &mut rows);
    }

    // Whether a state is this one, with its list.
    pub(crate) fn is(&self, state: RenderState, list: &[u32; MAX_LISTED]) -> bool {
        state == self.state && is_next(&list[..stored_rows(state)], &self.rows)
    }
}
