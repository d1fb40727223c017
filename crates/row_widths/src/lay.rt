// Sums in the rows that layout wrote.
ghost use Rattle.std.specs.Prelude.{◌≡◌, ◌+◌, ◌*◌, ◌-◌, ◌≤◌, ◌<◌, length};
ghost use Rattle.rows.specs.Places.{WIDTH, PLACES};
ghost use Rattle.node_widths.specs.Summed.{str_columns};
ghost use Rattle.row_widths.specs.Passes.{columns_in, any_width, pass, row_summed};

use crate::sum::row_columns;
use rows::kinds::Kind;
use rows::places::{PLACES, WIDTH};
use rows::store::has_kind;
use widths::Edition;

// A row's width becomes the sum of its text, if it is a `Str`.
#[tactic(auto, using(crate::proofs::Row::summed_str, crate::proofs::Row::summed_other))]
fn sum_row(store: &mut [u32], source: &[u8], image: &[u8], edition: Edition, row: usize)
    requires { row * PLACES + WIDTH < length store.old }
    ensures { store.new ≡ row_summed (any_width (columns_in edition source.now image.now)) store.old row }
{
    if has_kind(store, row, Kind::Str) {
        store[row * PLACES + WIDTH] = row_columns(store, source, image, edition, row);
    }
}

// The width of each `Str` row from `from` up to `to` becomes what its text measures by a rule; where widths are supplied it stays.
pub fn sum_by(store: &mut [u32], source: &[u8], image: &[u8], from: usize, to: usize, rule: usize)
    requires { to * PLACES ≤ length store.old }
    ensures { store.new ≡ pass (row_summed (str_columns rule source.now image.now)) (to - from) store.old from }
{
    let Some(edition) = Edition::of(rule) else {
        return;
    };
    for row in from..to {
        sum_row(store, source, image, edition, row);
    }
}
