// The width of rows, as far as a line has room for them.
// kept: the rows are a store and two numbers, as `must_wrap` and `Nested` of rows have them. A struct would be made for each call, as
// `Range { store, from: row + 1, to: end }`, and taken apart at once.
ghost use Rattle.renderer.specs.Measure.{MeasuresWithin, Within, Stopped, IsWrapped};
ghost use Rattle.rows.specs.Node.{widths, byte_columns};
ghost use Rattle.rows.specs.View.{view_of, nodes_at};
ghost use Rattle.rows.specs.Nesting.{Nested};

use arrayvec::ArrayVec;
use rows::kinds::Kind;
use rows::limits::MAX_DEPTH;
use rows::places::{AFTER, NUMBER, SECOND};
use rows::store::{has_kind, place};
use rows::units::Columns;
use rows::width::own_width;
use rows::wrap::is_wrapped;

// What stopped a sum of widths.
// kept: each end is an answer and none is a failure, so that a `Result` would mislead.
#[derive(Clone, Copy)]
enum Measured {
    // the range's end: the width
    Width(Columns),
    // the room's end
    Past,
    // an `IfWrap` that has wrapped: its row, and the width before it
    Wrapped(usize, Columns),
}

// The width of the rows from `from` up to the first `IfWrap` that has wrapped, or up to `to`. No row is read once the room is passed.
// kept: the next row is one on or behind a part, so that no range has the rows.
fn until_wrapped(store: &[u32], marks: &[u8], from: usize, to: usize, room: Columns) -> Measured
    requires { Nested store.now from to }
    ensures { Stopped store.now marks.now from to room.0 result }
{
    let mut row = from;
    let mut sum = Columns(0);
    while row < to {
        if room.0 < sum.0 {
            return Measured::Past;
        }
        if has_kind(store, row, Kind::IfWrap) {
            if is_wrapped(marks, place(store, row, NUMBER)) {
                return Measured::Wrapped(row, sum);
            }
            row = place(store, row, SECOND);
        } else {
            sum = sum + own_width(store, row);
            row += 1;
        }
    }
    if room.0 < sum.0 {
        return Measured::Past;
    }
    Measured::Width(sum)
}

// The same from an `IfWrap` on that has wrapped, if there is room. Inside its first part, `end` is where that part ends, and `ends` has what
// `end` was outside it.
// kept: the next row is one on or behind a part, so that no range has the rows.
fn wrapped_width(
    store: &[u32],
    marks: &[u8],
    from: usize,
    to: usize,
    room: Columns,
) -> Option<Columns>
    requires { Nested store.now from to × IsWrapped store.now marks.now from }
    ensures { MeasuresWithin store.now marks.now from to room.0 result }
{
    let mut ends: ArrayVec<u32, MAX_DEPTH> = ArrayVec::new();
    let mut row = from;
    let mut end = to;
    let mut sum = Columns(0);
    while row < to {
        if row < end {
            ends.push(end as u32);
            end = place(store, row, SECOND);
            row += 1;
        } else {
            end = ends.pop().unwrap() as usize;
            row = place(store, row, AFTER);
        }
        match until_wrapped(store, marks, row, end, Columns(room.0 - sum.0)) {
            Measured::Wrapped(at, w) => {
                row = at;
                sum = sum + w;
            }
            Measured::Width(w) => {
                row = end;
                sum = sum + w;
            }
            Measured::Past => return None,
        }
    }
    Some(sum)
}

// The width of the rows from `from` up to `to`, if there is room. Most rows have no `IfWrap` that has wrapped, and are measured in less time
// than it takes to clear an array: so `wrapped_width` is asked only where there is one.
pub(crate) fn width_within(
    store: &[u32],
    marks: &[u8],
    from: usize,
    to: usize,
    room: Columns,
) -> Option<Columns>
    requires { Nested store.now from to }
    ensures { Within (widths byte_columns marks.now (nodes_at (view_of store.now) from to)) room.0 result }
{
    match until_wrapped(store, marks, from, to, room) {
        Measured::Width(w) => Some(w),
        Measured::Past => None,
        Measured::Wrapped(row, w) => {
            let rest = wrapped_width(store, marks, row, to, Columns(room.0 - w.0))?;
            Some(w + rest)
        }
    }
}
