// What a row measures by itself.
ghost use Rattle.std.specs.Prelude.{◌≡◌, ◌<◌};
ghost use Rattle.rows.specs.Places.{KIND, RowIn};
ghost use Rattle.rows.specs.Limits.{CELL_LIMIT};
ghost use Rattle.rows.specs.View.{cell, own_width};

use crate::kinds::Kind;
use crate::store::{has_kind, str_width, text_size};
use crate::units::{Columns, ascii_columns};

// A block, an `IfWrap` and a `Call` have no width besides their parts'.
// kept: two tests and a number. By a `match` on the kind, or by a third test, it is a jump through a table, by which rendering takes up to 10
// parts in a hundred longer.
pub fn own_width(store: &[u32], row: usize) -> Columns
    requires { RowIn store.now row }
    ensures { (result.0 ≡ own_width store.now row (cell store.now row KIND)) × (result.0 < CELL_LIMIT) }
{
    if has_kind(store, row, Kind::Str) {
        str_width(store, row)
    } else if has_kind(store, row, Kind::Ascii) {
        ascii_columns(text_size(store, row))
    } else {
        Columns(usize::from(has_kind(store, row, Kind::LineOrSpace)))
    }
}
