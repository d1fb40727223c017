// What rows need: marks (refusal 9), and bytes at most, by a sum over their nodes: where the output has that many, no dry run has to count.
ghost use Rattle.std.specs.Prelude.{◌≡◌, ℕ, ◌+◌, ◌*◌, ◌≤◌, ◌<◌, ◌^◌, true, false, length, List};
ghost use Rattle.rows.specs.Kinds.{number_of};
ghost use Rattle.rows.specs.Places.{KIND, RowIn};
ghost use Rattle.rows.specs.View.{cell};
ghost use Rattle.rows.specs.Limits.{MAX_DEPTH};
ghost use Rattle.renderer_rules.specs.Limits.{START_MARGIN, ROW_GROWTH};
ghost use Rattle.rowcheck.specs.Shape.{is_leaf};
ghost use Rattle.rowcheck.specs.Needs.{row_most, steps_of, WithRow};

use marks::count::row_marks;
use rows::kinds::Kind;
use rows::store::{row_kind, text_size};
use rows::units::Bytes;

// Marks, and bytes at most.
#[derive(Clone, Copy)]
pub struct Needs {
    pub marks: usize,
    pub bytes: Bytes,
}

// The bytes of a step of `indent`.
const STEP: usize = 4;

// Whether rows of a kind have no parts: one range of numbers, tested before all else, since a jump by each kind is foreseen badly.
pub(crate) fn is_leaf(kind: Kind) -> bool
    ensures { result ≡ is_leaf (number_of kind) }
{
    matches!(
        kind,
        Kind::WrapParent
            | Kind::Comment
            | Kind::Str
            | Kind::Ascii
            | Kind::Line
            | Kind::EmptyLine
            | Kind::LineOrSpace
    )
}

// How many steps further in the lines of a row's parts start.
pub(crate) fn steps_of(store: &[u32], row: usize) -> u32
    requires { RowIn store.now row }
    ensures { (result ≡ steps_of (cell store.now row KIND)) × (result ≤ 1) }
{
    match row_kind(store, row) {
        Some(Kind::Indent | Kind::IndentNext | Kind::Call) => 1,
        _ => 0,
    }
}

// What a row that has no parts adds at most.
fn leaf_most(store: &[u32], row: usize, kind: Kind, margin: usize) -> Bytes
    requires row { RowIn store.now row }
    requires margin { margin ≤ START_MARGIN + MAX_DEPTH }
    requires leaf { is_leaf (number_of kind) ≡ true }
    ensures { (result.0 ≡ row_most margin store.now row (number_of kind)) × (result.0 ≤ ROW_GROWTH) }
{
    match kind {
        Kind::Str | Kind::Ascii => text_size(store, row),
        Kind::Comment => text_size(store, row) + Bytes(2 + STEP * margin),
        Kind::Line | Kind::EmptyLine | Kind::LineOrSpace => Bytes(2 + STEP * margin),
        Kind::WrapParent
        | Kind::Group
        | Kind::Indent
        | Kind::IndentNext
        | Kind::IfWrap
        | Kind::Call => Bytes(0),
    }
}

// What a row that may have parts adds at most by itself: a step, where it sets them in.
fn node_most(kind: Kind) -> Bytes
    requires { is_leaf (number_of kind) ≡ false }
    ensures { ((m : ℕ) (s : List ℕ) (i : ℕ) → result.0 ≡ row_most m s i (number_of kind)) × (result.0 ≤ ROW_GROWTH) }
{
    match kind {
        Kind::Group
        | Kind::IfWrap
        | Kind::WrapParent
        | Kind::Comment
        | Kind::Str
        | Kind::Ascii
        | Kind::Line
        | Kind::EmptyLine
        | Kind::LineOrSpace => Bytes(0),
        Kind::Indent | Kind::IndentNext | Kind::Call => Bytes(STEP),
    }
}

impl Needs {
    // What no rows need, where the first line starts `margin` steps in.
    pub(crate) fn of_none(margin: usize) -> Needs
        requires { margin ≤ START_MARGIN }
        ensures { (result.marks ≡ 0) × (result.bytes.0 ≡ 4 * margin) }
    {
        Needs {
            marks: 0,
            bytes: Bytes(STEP * margin),
        }
    }

    // With what a row more needs that has no parts, where lines start `margin` steps in.
    pub(crate) fn with_leaf(self, store: &[u32], row: usize, kind: Kind, margin: usize) -> Needs
        requires row { RowIn store.now row }
        requires kind { cell store.now row KIND ≡ number_of kind }
        requires leaf { is_leaf (number_of kind) ≡ true }
        requires margin { margin ≤ START_MARGIN + MAX_DEPTH }
        requires room { self.bytes.0 + ROW_GROWTH < 2 ^ 64 }
        ensures { WithRow store.now row margin self result }
    {
        Needs {
            marks: self.marks,
            bytes: self.bytes + leaf_most(store, row, kind, margin),
        }
    }

    // The same of a row that may have parts, without what these need.
    pub(crate) fn with_node(self, store: &[u32], row: usize, kind: Kind) -> Needs
        requires row { RowIn store.now row }
        requires kind { cell store.now row KIND ≡ number_of kind }
        requires node { is_leaf (number_of kind) ≡ false }
        requires room { self.bytes.0 + ROW_GROWTH < 2 ^ 64 }
        ensures { (m : ℕ) → WithRow store.now row m self result }
    {
        Needs {
            marks: self.marks.max(row_marks(store, row)),
            bytes: self.bytes + node_most(kind),
        }
    }
}
