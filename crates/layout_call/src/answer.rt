// What a call whose state is accepted lays and answers.
ghost use Rattle.std.specs.Prelude.{◌≡◌};
ghost use Rattle.layout_call.specs.Steps.{StateFits, from_of};
ghost use Rattle.layout_call.specs.Whole.{LaidAtOnce};
ghost use Rattle.layout_call.specs.ByCall.{of_call};

use crate::call::Call;
use crate::{Laid, LayoutState};
use acts::Cursor;
use refusals::{Reason, Refused};
use row_widths::lay::sum_by;
use rows::places::PLACES;

impl Call<'_> {
    // Where the call starts.
    pub(crate) fn cursor(&self) -> Cursor
        ensures { result ≡ from_of self.now.state }
    {
        Cursor {
            row: self.state.row as u32,
            number: self.state.number as u32,
            pos: self.state.position as u32,
            placed: self.state.placed as u32,
        }
    }

    // Lays what is due, with the sums of the rule in the rows of texts. Where the store has too few rows, those that have room are laid, without sums.
    pub(crate) fn laid(&self, store: &mut [u32]) -> Result<Laid, Refused>
        requires { of_call StateFits self.now store.old }
        ensures { of_call LaidAtOnce self.now store.old result store.new }
    {
        let rows = store.len() / PLACES;
        let e = self.lay_all(store);
        let row = e.row as usize;
        if rows < row {
            return Err(Reason::RowsNeeded.at(row));
        }
        let file = self.file.parsed;
        sum_by(
            store,
            file.source,
            file.image,
            self.state.row,
            row,
            self.args.rule,
        );
        let placed = e.placed as usize;
        Ok(Laid {
            state: LayoutState {
                begun: true,
                closed: self.args.close,
                declaration: self.args.stop,
                row,
                number: e.number as usize,
                placed,
                position: e.pos as usize,
                mode: self.args.mode,
                rule: self.args.rule,
            },
            left: self.file.doc.comments - placed,
        })
    }
}
