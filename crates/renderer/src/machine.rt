// `render_node` over rows: a loop that keeps the open rows.
ghost use Rattle.std.specs.Prelude.{◌≡◌, ◌+◌, ◌*◌, ◌<◌, true, false, cond, length, ltb};
ghost use Rattle.rows.specs.Kinds.{number_of};
ghost use Rattle.rows.specs.View.{view_of, nodes_at};
ghost use Rattle.renderer_rules.specs.Page.{page_of};
ghost use Rattle.renderer_rules.specs.Renderer.{fresh_renderer, render_nodes};
ghost use Rattle.rows.specs.Places.{WIDTH, PLACES};
ghost use Rattle.renderer_rules.specs.Frames.{part_end};
ghost use Rattle.renderer.specs.Run.{Unstarted, Rendered, Starting, Ended};
ghost use Rattle.renderer.specs.Halts.{parts_in, Passing, Passed, Resuming, Halted};

use crate::close::part_end;
use crate::frames::Frames;
use crate::leaf::LeafRow;
use crate::run::{Bounds, Renderer};
use crate::writing::Writing;
use renderer_rules::Frame;
use rows::kinds::Kind;
use rows::store::kind;
use rows::texts::Rows;

// More rows than a store has may be entered where an allotment is larger.
const MOST_ROWS: usize = 1 << 32;

// Whether rows of a kind have parts.
// kept: one `matches!`, over another enum than `is_braced` of layout.
fn has_parts(kind: Kind) -> bool
    ensures { result ≡ parts_in (number_of kind) }
{
    matches!(
        kind,
        Kind::Group | Kind::Indent | Kind::IndentNext | Kind::IfWrap | Kind::Call
    )
}

impl Renderer<'_> {
    // The rows without parts from the next one on, up to row `end` of the open part: the kind of the first with parts.
    // kept: what is next is read from the row, and the first with parts ends it, so that no range has the turns.
    fn leaves(&mut self, rows: Rows<'_>, wrap: bool, end: usize) -> Option<Kind>
        requires { Passing rows wrap end self.old }
        ensures { Passed rows.entry end self.old self.new result }
    {
        while self.next != end {
            let kind = kind(rows.store, self.next);
            if has_parts(kind) {
                return Some(kind);
            }
            let l = LeafRow {
                row: self.next,
                kind,
                wrap,
            };
            self.writing.leaf(self.out, rows, l);
            self.next += 1;
        }
        None
    }

    // Where the open part ends, the stop where no row is open.
    fn open_end(&self, store: &[u32], f: Frame, stop: usize) -> usize
        requires { 0 < self.now.frames.depth → f.row * PLACES + WIDTH < length store.now }
        ensures { result ≡ cond (ltb 0 self.now.frames.depth) (part_end (view_of store.now) f) stop }
    {
        if 0 < self.frames.depth {
            part_end(store, f)
        } else {
            stop
        }
    }

    // Goes on up to the stop, or until so many rows are entered and what they finished is closed: how many were entered. Rows that are
    // passed over move `mark` on. As a variable of the loop it takes 1 to 2 parts in a hundred more.
    // kept: three parameters and no `Rows`: tried, and the proof didn't close: that each number of a slice is below 2^32 is known of a parameter,
    // not of a field.
    pub fn render(
        &mut self,
        store: &[u32],
        source: &[u8],
        image: &[u8],
        stop: usize,
        allotment: usize,
    ) -> usize
        requires { Resuming store.now stop self.old }
        ensures { Halted store.now source.now image.now stop allotment self.old self.new result }
    {
        let rows = Rows {
            store,
            source,
            image,
        };
        let most = allotment.min(MOST_ROWS);
        self.mark = self.next + most;
        loop {
            let f = self.frames.innermost();
            let end = self.open_end(rows.store, f, stop);
            match self.leaves(rows, f.wrap, end.min(self.mark)) {
                Some(kind) => {
                    let row = self.next;
                    self.open_row(rows.store, f.wrap, kind);
                    self.mark += self.next - row - 1;
                }
                None => {
                    if self.next != end || self.frames.depth == 0 {
                        break;
                    }
                    self.leave(rows.store, f);
                    self.mark += self.next - end;
                }
            }
        }
        most - (self.mark - self.next)
    }

    // Renders the rows from the next one up to the stop, where no row is open.
    fn render_all(&mut self, store: &[u32], source: &[u8], image: &[u8], stop: usize)
        requires { Unstarted store.now stop self.old }
        ensures { Rendered store.now source.now image.now stop self.old self.new }
    {
        self.render(store, source, image, stop, usize::MAX);
    }
}

// Renders rows: from a row on, with no row open, up to the stop.
pub fn run_rows(
    start: Writing,
    from: usize,
    rows: Rows<'_>,
    marks: &mut [u8],
    out: &mut [u8],
    bounds: Bounds,
) -> Writing
    requires { Starting rows.store.now from bounds.stop start }
    ensures { Ended (length out.old)
        (render_nodes (page_of bounds.max.0 rows.entry.source.now rows.entry.image.now) (nodes_at (view_of rows.entry.store.now) from bounds.stop)
        true (fresh_renderer start.pen marks.old)) out.old marks.new out.new result }
{
    let mut renderer = Renderer {
        marks,
        out,
        max: bounds.max,
        writing: start,
        frames: Frames::new(),
        next: from,
        mark: 0,
    };
    renderer.render_all(rows.store, rows.source, rows.image, bounds.stop);
    renderer.writing
}
