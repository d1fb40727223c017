// The loop over rows: which is the first wrong one, and what they need.
ghost use Rattle.std.specs.Prelude.{◌≡◌, ◌+◌, ◌*◌, ◌^◌, ◌≤◌, ◌<◌, true, false, length, None};
ghost use Rattle.rows.specs.Places.{PLACES};
ghost use Rattle.rows.specs.Limits.{MAX_ROWS, MAX_DEPTH};
ghost use Rattle.rows.specs.View.{view_of};
ghost use Rattle.renderer_rules.specs.Check.{places_fit, row_fits_of, wrong_row_of, wrong_place};
ghost use Rattle.renderer_rules.specs.Limits.{START_MARGIN, ROW_GROWTH};
ghost use Rattle.rowcheck.specs.Shape.{inside_of};
ghost use Rattle.rowcheck.specs.Needs.{NeedsOf, Tried, Weighed};

use crate::Block;
use crate::needs::{Needs, is_leaf, steps_of};
use arrayvec::ArrayVec;
use rows::limits::MAX_DEPTH;
use rows::places::AFTER;
use rows::store::{place, row_kind};
use rows::texts::Rows;

// A part of the rows: where it ends, and how many steps in its lines start.
#[derive(Clone, Copy, Default)]
struct Part {
    end: u32,
    margin: u32,
}

// Whether a row lies inside the rows around it, this many and the innermost up to `end`; not tested where all rows are right.
fn is_inside(depth: usize, row: usize, after: usize, end: usize, test: bool) -> bool
    requires { test ≡ false → inside_of depth row after end ≡ true }
    ensures { result ≡ inside_of depth row after end }
{
    !test || depth < MAX_DEPTH && row < after && after <= end
}

// What rows need with a row more, which is in a part with so many rows around it, if that is right.
fn weigh_row(
    rows: Rows<'_>,
    part: Part,
    depth: usize,
    row: usize,
    needs: Needs,
    test: bool,
) -> Option<Needs>
    requires inside { (row < part.end) × ((part.end * PLACES ≤ length rows.store.now) × (part.end ≤ MAX_ROWS)) }
    requires margin { part.margin ≤ START_MARGIN + MAX_DEPTH }
    requires room { needs.bytes.0 + ROW_GROWTH < 2 ^ 64 }
    requires right { test ≡ false → row_fits_of (places_fit rows.source.now rows.image.now rows.store.now) (view_of rows.store.now) part.end depth row ≡ true }
    ensures { Tried rows.entry.store.now row part.margin
        (row_fits_of (places_fit rows.entry.source.now rows.entry.image.now rows.entry.store.now) (view_of rows.entry.store.now) part.end depth row)
        needs result }
{
    let after = place(rows.store, row, AFTER);
    if !is_inside(depth, row, after, part.end as usize, test) {
        return None;
    }
    let block = Block { rows, row, after };
    let Some(kind) = row_kind(rows.store, row) else {
        return None;
    };
    if is_leaf(kind) {
        if !block.leaf_passes(kind, test) {
            return None;
        }
        return Some(needs.with_leaf(rows.store, row, kind, part.margin as usize));
    }
    if !block.node_passes(kind, test) {
        return None;
    }
    Some(needs.with_node(rows.store, row, kind))
}

// The first row from `from` up to `stop` that is not right, or what they need. `outer` has the parts around the open one. Where all rows are right
// they need not be tested.
#[inline(never)]
pub(crate) fn weigh_rows(
    rows: Rows<'_>,
    from: usize,
    stop: usize,
    margin: usize,
    test: bool,
) -> Result<Needs, usize>
    requires rows { (stop * PLACES ≤ length rows.store.now) × (stop ≤ MAX_ROWS) }
    requires margin { margin ≤ START_MARGIN }
    requires right { test ≡ false
        → wrong_row_of (places_fit rows.source.now rows.image.now rows.store.now) (view_of rows.store.now) stop 0 from ≡ None }
    ensures { Weighed rows.entry.store.now from stop margin
        (wrong_row_of (places_fit rows.entry.source.now rows.entry.image.now rows.entry.store.now) (view_of rows.entry.store.now) stop 0 from) result }
{
    let mut outer: ArrayVec<Part, MAX_DEPTH> = ArrayVec::new();
    let mut part = Part {
        end: stop as u32,
        margin: margin as u32,
    };
    let mut row = from;
    let mut needs = Needs::of_none(margin);
    // kept: the next row is one on, or there is none and a block ends: no range has these turns.
    loop {
        if row < part.end as usize {
            let Some(more) = weigh_row(rows, part, outer.len(), row, needs, test) else {
                return Err(row);
            };
            needs = more;
            let after = place(rows.store, row, AFTER);
            if row + 1 < after {
                outer.push(part);
                part = Part {
                    end: after as u32,
                    margin: part.margin + steps_of(rows.store, row),
                };
            }
            row += 1;
        } else {
            match outer.pop() {
                Some(around) => part = around,
                None => return Ok(needs),
            }
        }
    }
}

// What rows need that are right.
pub fn rows_need(rows: Rows<'_>, from: usize, stop: usize, margin: usize) -> Needs
    requires right { wrong_place rows.source.now rows.image.now rows.store.now from stop ≡ None }
    requires margin { margin ≤ START_MARGIN }
    ensures { NeedsOf rows.entry.store.now from stop margin result }
{
    match weigh_rows(rows, from, stop, margin, false) {
        Ok(needs) => needs,
        Err(_) => Needs::of_none(margin),
    }
}
