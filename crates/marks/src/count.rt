// The marks that rows need: how many (refusal 9), and set to 0 as they come into use.
ghost use Rattle.std.specs.Prelude.{◌≡◌, ◌-◌, ◌≤◌, length};
ghost use Rattle.rows.specs.Places.{RowIn};
ghost use Rattle.rows.specs.Limits.{CELL_LIMIT};
ghost use Rattle.marks.specs.Marks.{row_marks, clear_from};

use crate::numbers::{Numbers, numbers_of};

// How many marks a row needs.
pub fn row_marks(store: &[u32], row: usize) -> usize
    requires { RowIn store.now row }
    ensures { (result ≡ row_marks store.now row) × (result ≤ CELL_LIMIT) }
{
    match numbers_of(store, row) {
        Numbers::Two(number, second) => 1 + number.max(second),
        Numbers::One(number) => 1 + number,
        Numbers::None => 0,
    }
}

// Clears the marks from one number up to another.
pub fn clear_marks(marks: &mut [u8], from: usize, to: usize)
    requires { to ≤ length marks.old }
    ensures { marks.new ≡ clear_from (to - from) from marks.old }
{
    if from < to {
        marks[from..to].fill(0);
    }
}
