// The text of a row.
ghost use Rattle.std.specs.Prelude.{◌≡◌, ◌+◌, ◌*◌, ◌<◌, length};
ghost use Rattle.rows.specs.Places.{WIDTH, PLACES};
ghost use Rattle.rows.specs.Limits.{CELL_LIMIT};
ghost use Rattle.renderer_rules.specs.Page.{row_bytes};

use rows::origins::origin_text;
use rows::places::{ORIGIN, SIZE, START};
use rows::store::place;
use rows::texts::Rows;

// As far as it lies inside its origin. (All does, in rows that were checked.)
pub fn row_text<'a>(rows: Rows<'a>, row: usize) -> &'a [u8]
    requires { row * PLACES + WIDTH < length rows.store.now }
    ensures text { result.now ≡ row_bytes rows.entry.source.now rows.entry.image.now rows.entry.store.now row }
    ensures small { length result.now < CELL_LIMIT }
{
    let text = origin_text(rows.source, rows.image, place(rows.store, row, ORIGIN));
    let start = place(rows.store, row, START).min(text.len());
    let end = (start + place(rows.store, row, SIZE)).min(text.len());
    &text[start..end]
}
