// `Ascii` rows as `Str` rows for the time of a run.
ghost use Rattle.std.specs.Prelude.{◌≡◌, ◌+◌, ◌*◌, ◌-◌, ◌≤◌, ◌<◌, length};
ghost use Rattle.rows.specs.Places.{WIDTH, PLACES};
ghost use Rattle.row_widths.specs.Passes.{columns_in, pass, pass_back, row_turned, row_back};

use crate::sum::row_columns;
use rows::kinds::Kind;
use rows::places::{KIND, NUMBER, PLACES, WIDTH};
use rows::store::{has_kind, place};
use widths::Edition;

// The number place of a turned row has 1.
const TURNED: u32 = 1;

// An `Ascii` row becomes a `Str` row of the sum of its text.
#[tactic(auto, using(crate::proofs::Row::turned_ascii, crate::proofs::Row::turned_other))]
fn turn_row(store: &mut [u32], source: &[u8], image: &[u8], edition: Edition, row: usize)
    requires { row * PLACES + WIDTH < length store.old }
    ensures { store.new ≡ row_turned (columns_in edition source.now image.now) store.old row }
{
    if has_kind(store, row, Kind::Ascii) {
        let sum = row_columns(store, source, image, edition, row);
        store[row * PLACES + KIND] = Kind::Str.number();
        store[row * PLACES + NUMBER] = TURNED;
        store[row * PLACES + WIDTH] = sum;
    }
}

// A turned row becomes the `Ascii` row that it was.
#[tactic(auto, using(crate::proofs::Row::back_turned, crate::proofs::Row::back_other))]
fn back_row(store: &mut [u32], row: usize)
    requires { row * PLACES + WIDTH < length store.old }
    ensures { store.new ≡ row_back store.old row }
{
    if has_kind(store, row, Kind::Str) && place(store, row, NUMBER) == TURNED as usize {
        store[row * PLACES + KIND] = Kind::Ascii.number();
        store[row * PLACES + NUMBER] = 0;
        store[row * PLACES + WIDTH] = 0;
    }
}

// Each `Ascii` row from `from` up to `to` becomes a `Str` row of what its text measures by an edition.
pub fn turn_by(
    store: &mut [u32],
    source: &[u8],
    image: &[u8],
    from: usize,
    to: usize,
    edition: Edition,
)
    requires { to * PLACES ≤ length store.old }
    ensures { store.new ≡ pass (row_turned (columns_in edition source.now image.now)) (to - from) store.old from }
{
    for row in from..to {
        turn_row(store, source, image, edition, row);
    }
}

// Each turned row becomes an `Ascii` row again, after the run.
pub fn turn_back(store: &mut [u32], from: usize, to: usize)
    requires { (from ≤ to) × (to * PLACES ≤ length store.old) }
    ensures { store.new ≡ pass_back row_back (to - from) store.old from }
{
    for row in (from..to).rev() {
        back_row(store, row);
    }
}
