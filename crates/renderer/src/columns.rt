// What fits: the column, and whether rows wrap there.
// kept: in each function the rows are a store and two numbers, as in measure.rt.
ghost use Rattle.std.specs.Prelude.{◌≡◌, ◌≤◌, ltb};
ghost use Rattle.rows.specs.Nesting.{Nested};
ghost use Rattle.renderer_rules.specs.Renderer.{virtual_column};
ghost use Rattle.renderer.specs.Limits.{MAX_MARGIN};
ghost use Rattle.renderer.specs.Run.{HasMargin, column_behind, rows_wrap, rows_trail};

use crate::measure::width_within;
use crate::run::Renderer;
use crate::writing::margin_columns;
use renderer_rules::Pen;
use rows::units::Columns;
use rows::wrap::must_wrap;

// The column, or where the line will start.
#[tactic(auto, unfolding(renderer_rules::specs::Renderer::virtual_column))]
fn virtual_column(p: Pen) -> Columns
    requires { p.indent ≤ MAX_MARGIN }
    ensures { result.0 ≡ virtual_column p }
{
    if 0 < p.column.0 {
        p.column
    } else {
        margin_columns(p.indent)
    }
}

impl Renderer<'_> {
    // Whether the rows from `from` up to `to` go past the line's end. Nothing is measured past it.
    pub(crate) fn exceeds(&self, store: &[u32], from: usize, to: usize) -> bool
        requires { Nested store.now from to × HasMargin self.now.writing.pen }
        ensures { result ≡ ltb self.now.max.0 (column_behind store.now self.now from to) }
    {
        let start = virtual_column(self.writing.pen);
        if self.max.0 < start.0 {
            return true;
        }
        let room = Columns(self.max.0 - start.0);
        width_within(store, self.marks, from, to, room).is_none()
    }

    // Whether the group of the rows from `from` up to `to` wraps.
    #[tactic(auto, unfolding(renderer_rules::specs::Renderer::group_wraps, renderer_rules::specs::Renderer::wraps))]
    pub(crate) fn group_wraps(&self, store: &[u32], from: usize, to: usize) -> bool
        requires { Nested store.now from to × HasMargin self.now.writing.pen }
        ensures { result ≡ rows_wrap store.now self.now from to }
    {
        must_wrap(store, from, to) || self.exceeds(store, from, to)
    }

    // Whether a call keeps its callee's line: the first branch of `Call`. The callee's rows are those up to `mid`, the arguments' up to `to`;
    // `over` says whether they go past the line's end together.
    pub(crate) fn trailing_call(
        &self,
        store: &[u32],
        over: bool,
        from: usize,
        mid: usize,
        to: usize,
    ) -> bool
        requires callee { Nested store.now from mid }
        requires arguments { Nested store.now mid to }
        requires margin { HasMargin self.now.writing.pen }
        requires over_value { over ≡ ltb self.now.max.0 (column_behind store.now self.now from to) }
        ensures { result ≡ rows_trail store.now self.now from mid to }
    {
        if !over || must_wrap(store, from, mid) || must_wrap(store, mid, to) {
            return false;
        }
        match width_within(store, self.marks, from, mid, self.max) {
            Some(w) => virtual_column(self.writing.pen).0 + w.0 + 1 < self.max.0,
            None => false,
        }
    }
}
