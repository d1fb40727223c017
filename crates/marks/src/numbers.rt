// The numbers of a row, each of which has a mark.
ghost use Rattle.std.specs.Prelude.{◌≡◌};
ghost use Rattle.rows.specs.Places.{RowIn};
ghost use Rattle.rows.specs.Limits.{CELL_LIMIT};
ghost use Rattle.marks.specs.Marks.{numbers_of};
ghost use Rattle.marks.specs.Numbers.{listed};

use rows::kinds::Kind;
use rows::places::{NUMBER, SECOND_NUMBER};
use rows::store::{place, row_kind};

// Two of a `Call`, one of a `Group` or an `IfWrap`.
#[derive(Clone, Copy)]
pub(crate) enum Numbers {
    None,
    One(usize),
    Two(usize, usize),
}

// The numbers of a row.
pub(crate) fn numbers_of(store: &[u32], row: usize) -> Numbers
    requires { RowIn store.now row }
    ensures { listed result ≡ numbers_of store.now row }
{
    let number = place(store, row, NUMBER);
    match row_kind(store, row) {
        Some(Kind::Call) => Numbers::Two(number, place(store, row, SECOND_NUMBER)),
        Some(Kind::Group | Kind::IfWrap) => Numbers::One(number),
        _ => Numbers::None,
    }
}
