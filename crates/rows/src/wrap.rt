// Which rows wrap: `must_wrap` of a range of rows, and the groups that have wrapped so far.
ghost use Rattle.std.specs.Prelude.{◌≡◌};
ghost use Rattle.rows.specs.Node.{wrapped, must_wraps};
ghost use Rattle.rows.specs.View.{view_of, nodes_at};
ghost use Rattle.rows.specs.Nesting.{Nested};

use crate::kinds::Kind;
use crate::places::AFTER;
use crate::store::{has_kind, place};

// Whether a row from `from` up to `to`, or one in an `Indent` there, wraps what encloses it.
// kept: a loop, since each next row is read from the last one. An iterator would have this loop in it, and its invariant, for this use alone.
pub fn must_wrap(store: &[u32], from: usize, to: usize) -> bool
    requires { Nested store.now from to }
    ensures { result ≡ must_wraps (nodes_at (view_of store.now) from to) }
{
    let mut row = from;
    while row < to {
        if has_kind(store, row, Kind::WrapParent) || has_kind(store, row, Kind::Comment) {
            return true;
        }
        if has_kind(store, row, Kind::Indent) {
            row += 1;
        } else {
            row = place(store, row, AFTER);
        }
    }
    false
}

// Whether the group of a number has wrapped.
pub fn is_wrapped(marks: &[u8], number: usize) -> bool
    ensures { result ≡ wrapped marks.now number }
{
    number < marks.len() && marks[number] == 1
}
