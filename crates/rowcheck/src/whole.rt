// Whether the texts of rows are whole: "11 for a text that cuts a character or isn't UTF-8".
ghost use Rattle.std.specs.Prelude.{◌≡◌, true, ◌*◌, ◌-◌, ◌≤◌, length};
ghost use Rattle.rows.specs.Kinds.{number_of};
ghost use Rattle.rows.specs.Places.{PLACES, RowIn};
ghost use Rattle.renderer_rules.specs.Check.{uses_text, text_fits, text_whole, whole_at, places_fit};
ghost use Rattle.rowcheck.specs.Torn.{first_failing, Fitting};

use rows::kinds::Kind;
use rows::origins::origin_text;
use rows::places::{ORIGIN, SIZE, START};
use rows::store::{place, row_kind};
use rows::texts::Rows;
use text::utf8::{is_cut, is_well_formed};

// The text of a row. One that is UTF-8 and not empty cuts nothing.
fn is_whole(rows: Rows<'_>, row: usize) -> bool
    requires inside { RowIn rows.store.now row }
    requires fits { text_fits rows.source.now rows.image.now rows.store.now row ≡ true }
    ensures { result ≡ text_whole rows.entry.source.now rows.entry.image.now rows.entry.store.now row }
{
    let origin = origin_text(rows.source, rows.image, place(rows.store, row, ORIGIN));
    let start = place(rows.store, row, START);
    let size = place(rows.store, row, SIZE);
    if size == 0 {
        !is_cut(origin, start)
    } else {
        is_well_formed(&origin[start..start + size])
    }
}

// Whether rows of a kind have a text.
fn has_text(kind: Kind) -> bool
    ensures { result ≡ uses_text (number_of kind) }
{
    matches!(kind, Kind::Comment | Kind::Str | Kind::Ascii)
}

// Whether the text of a row, if it has one, is whole.
fn is_row_whole(rows: Rows<'_>, row: usize) -> bool
    requires inside { RowIn rows.store.now row }
    requires fits { places_fit rows.source.now rows.image.now rows.store.now row ≡ true }
    ensures { result ≡ whole_at rows.entry.source.now rows.entry.image.now rows.entry.store.now row }
{
    match row_kind(rows.store, row) {
        Some(kind) if has_text(kind) => is_whole(rows, row),
        _ => true,
    }
}

// The first row from `from` up to `to` whose text is torn; the rows are right but for that.
pub(crate) fn first_torn(rows: Rows<'_>, from: usize, to: usize) -> Option<usize>
    requires inside { to * PLACES ≤ length rows.store.now }
    requires fitting { Fitting rows.source.now rows.image.now rows.store.now from to }
    ensures { result ≡ first_failing (whole_at rows.entry.source.now rows.entry.image.now rows.entry.store.now) (to - from) from }
{
    for row in from..to {
        if !is_row_whole(rows, row) {
            return Some(row);
        }
    }
    None
}
