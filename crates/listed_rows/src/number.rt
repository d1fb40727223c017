// A listed row as a number.
// kept: numbers packed into one, and no struct with an enum: a state is lent as numbers by C, and so each of them is a row with facts that are legal.
ghost use Rattle.std.specs.Prelude.{◌≡◌, ◌<◌};
ghost use Rattle.rows.specs.Limits.{MAX_ROWS};
ghost use Rattle.rows.specs.Places.{RowIn};
ghost use Rattle.rows.specs.View.{view_of};
ghost use Rattle.renderer_rules.specs.Stops.{listed_as};
ghost use Rattle.renderer_rules.specs.Listed.{is_early, resumed};
ghost use Rattle.listed_rows.specs.Numbers.{open_row, row_number};

use renderer_rules::Frame;
use rows::kinds::Kind;
use rows::places::SECOND;
use rows::store::{place, row_kind};

// The row that a number lists.
#[tactic(auto, unfolding(crate::specs::Numbers::open_row))]
pub fn listed_row(number: u32) -> usize
    ensures { result ≡ (open_row number).row }
{
    (number / 6) as usize
}

// Whether the first of two parts of a row is open, with row `next` next.
#[tactic(auto, unfolding(rows::specs::View::view_of))]
fn is_first(store: &[u32], row: usize, next: usize) -> bool
    requires { RowIn store.now row }
    ensures { result ≡ is_early (view_of store.now) row next }
{
    matches!(row_kind(store, row), Some(Kind::IfWrap | Kind::Call))
        && next < place(store, row, SECOND)
}

// A listed row as an open one, with row `next` next.
pub fn resume(store: &[u32], number: u32, next: usize) -> Frame
    requires { RowIn store.now (open_row number).row }
    ensures { result ≡ resumed (view_of store.now) next (open_row number) }
{
    let way = number / 2 % 3;
    Frame {
        row: number / 6,
        wrap: number % 2 == 1,
        first: is_first(store, listed_row(number), next),
        deeper: way == 2,
        made: way != 0,
    }
}

// An open row as it is listed.
pub fn number_of(f: Frame) -> u32
    requires { f.row < MAX_ROWS }
    ensures { result ≡ row_number (listed_as f) }
{
    let way = if f.deeper { 2 } else { u32::from(f.made) };
    f.row * 6 + way * 2 + u32::from(f.wrap)
}
