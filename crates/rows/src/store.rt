// The places of a row.
ghost use Rattle.std.specs.Prelude.{◌≡◌, ◌≤◌, ◌<◌, eqb, set};
ghost use Rattle.rows.specs.Kinds.{CALL, number_of, kind_of};
ghost use Rattle.rows.specs.Places.{KIND, SIZE, WIDTH, PlaceIn, RowIn};
ghost use Rattle.rows.specs.Limits.{CELL_LIMIT};
ghost use Rattle.rows.specs.View.{cell};

use crate::kinds::Kind;
use crate::places::{KIND, PLACES, SIZE, WIDTH};
use crate::units::{Bytes, Columns};

// Stores v at i, or nothing where i is past the end.
pub fn put<T: Copy>(list: &mut [T], i: usize, v: T)
    ensures { list.new ≡ set list.old i v }
{
    if i < list.len() {
        list[i] = v;
    }
}

// Place k of a row.
pub fn place(store: &[u32], row: usize, k: usize) -> usize
    requires { PlaceIn store.now row k }
    ensures { (result ≡ cell store.now row k) × (result < CELL_LIMIT) }
{
    store[row * PLACES + k] as usize
}

// The kind of a row, if it has one.
pub fn row_kind(store: &[u32], row: usize) -> Option<Kind>
    requires { PlaceIn store.now row KIND }
    ensures { result ≡ kind_of (cell store.now row KIND) }
{
    Kind::of(place(store, row, KIND))
}

// The kind of a row that has one.
#[tactic(auto, using(crate::proofs::KindOf::is_kind, crate::proofs::KindOf::some_kind))]
pub fn kind(store: &[u32], row: usize) -> Kind
    requires { PlaceIn store.now row KIND × (cell store.now row KIND ≤ CALL) }
    ensures { cell store.now row KIND ≡ number_of result }
{
    row_kind(store, row).unwrap()
}

// Whether a row is of a kind.
pub fn has_kind(store: &[u32], row: usize, kind: Kind) -> bool
    requires { PlaceIn store.now row KIND }
    ensures { result ≡ eqb (cell store.now row KIND) (number_of kind) }
{
    place(store, row, KIND) == kind.number() as usize
}

// The length of a row's text.
pub fn text_size(store: &[u32], row: usize) -> Bytes
    requires { PlaceIn store.now row SIZE }
    ensures { (result.0 ≡ cell store.now row SIZE) × (result.0 < CELL_LIMIT) }
{
    Bytes(place(store, row, SIZE))
}

// The width of a `Str`.
pub fn str_width(store: &[u32], row: usize) -> Columns
    requires { RowIn store.now row }
    ensures { (result.0 ≡ cell store.now row WIDTH) × (result.0 < CELL_LIMIT) }
{
    Columns(place(store, row, WIDTH))
}
