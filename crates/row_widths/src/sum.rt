// How many columns a row's text takes.
ghost use Rattle.std.specs.Prelude.{◌≡◌, ◌+◌, ◌*◌, ◌<◌, length};
ghost use Rattle.rows.specs.Places.{WIDTH, PLACES};
ghost use Rattle.renderer_rules.specs.Page.{row_text};
ghost use Rattle.row_widths.specs.Passes.{columns_in};

use renderer_rules::texts::row_text;
use rows::texts::Rows;
use widths::Edition;

pub(crate) fn row_columns(
    store: &[u32],
    source: &[u8],
    image: &[u8],
    edition: Edition,
    row: usize,
) -> u32
    requires { row * PLACES + WIDTH < length store.now }
    ensures { result ≡ columns_in edition source.now image.now (row_text store.now row) }
{
    let rows = Rows {
        store,
        source,
        image,
    };
    edition.text_columns(row_text(rows, row)).0 as u32
}
