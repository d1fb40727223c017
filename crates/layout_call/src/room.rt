// Refusal 8: how many rows a call needs.
ghost use Rattle.std.specs.Prelude.{◌≡◌};
ghost use Rattle.layout_call.specs.Steps.{missing};
ghost use Rattle.layout_call.specs.ByCall.{rows_behind};

use crate::call::Call;

// A tree has no more than five rows for each 13 bytes of its image: a byte gives 5 points, and a row takes 13.
const BYTE_GIVES: usize = 5;

const ROW_TAKES: usize = 13;

impl Call<'_> {
    // The row behind what the call lays, counted over a store that has no room for it.
    fn rows_needed(&self) -> usize
        ensures { result ≡ rows_behind self.now }
    {
        self.lay_all(&mut []).row as usize
    }

    // The same, if a store of so many rows lacks some. Where it has all the rows that the image's bytes give, nothing is counted.
    pub(crate) fn rows_missing(&self, rows: usize) -> Option<usize>
        ensures { result ≡ missing rows (rows_behind self.now) }
    {
        let most = self.state.row + self.file.parsed.image.len() * BYTE_GIVES / ROW_TAKES;
        if most <= rows {
            return None;
        }
        let needed = self.rows_needed();
        if rows < needed { Some(needed) } else { None }
    }
}
