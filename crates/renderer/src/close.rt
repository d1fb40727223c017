// How the open part of a row ends, and what the end of a row takes back.
ghost use Rattle.std.specs.Prelude.{◌≡◌, ◌+◌, ◌*◌, ◌<◌, length};
ghost use Rattle.rows.specs.Places.{KIND, WIDTH, PLACES};
ghost use Rattle.rows.specs.View.{view_of, cell};
ghost use Rattle.renderer_rules.specs.Frames.{part_end};
ghost use Rattle.renderer_rules.specs.Machine.{closes};
ghost use Rattle.renderer.specs.Run.{run_of, closed_run, Backs, Leaves, Left, Unmarked, Unwritten};

use crate::run::Renderer;
use renderer_rules::{Frame, Pen};
use rows::kinds::Kind;
use rows::places::{AFTER, SECOND};
use rows::store::{has_kind, place, row_kind};

// Where the open part of a row ends.
#[tactic(auto, unfolding(rows::specs::View::view_of, renderer_rules::specs::Frames::part_end))]
pub(crate) fn part_end(store: &[u32], f: Frame) -> usize
    requires { f.row * PLACES + WIDTH < length store.now }
    ensures { result ≡ part_end (view_of store.now) f }
{
    place(store, f.row as usize, if f.first { SECOND } else { AFTER })
}

// What the end of a row takes back.
fn take_back(pen: &mut Pen, store: &[u32], f: Frame)
    requires { (f.row * PLACES + WIDTH < length store.now) × Backs (cell store.now f.row KIND) f pen.old }
    ensures { pen.new ≡ closes (cell store.now f.row KIND) f.wrap f.deeper pen.old }
{
    match row_kind(store, f.row as usize) {
        Some(Kind::Indent) => pen.indent_less(f.wrap),
        Some(Kind::IndentNext) => pen.next_indent_less(f.wrap),
        Some(Kind::Call) => pen.next_indent_less(f.deeper),
        _ => {}
    }
}

impl Renderer<'_> {
    // The innermost row is closed, and the row after it is next.
    fn close(&mut self, store: &[u32], f: Frame)
        requires { Leaves store.now (run_of self.old) f }
        ensures run { run_of self.new ≡ closed_run store.now (run_of self.old) f }
        ensures unmarked { Unmarked self.old self.new }
    {
        take_back(&mut self.writing.pen, store, f);
        self.frames.pop();
        self.next = place(store, f.row as usize, AFTER);
    }

    // The open part of the innermost row is done.
    pub(crate) fn leave(&mut self, store: &[u32], f: Frame)
        requires { Leaves store.now (run_of self.old) f }
        ensures left { Left store.now self.old.max.0 self.old.marks.now (run_of self.old) f self.new.marks.now (run_of self.new) }
        ensures unwritten { Unwritten self.old self.new }
    {
        if f.first && has_kind(store, f.row as usize, Kind::Call) {
            self.enter_arguments(store, f);
        } else {
            self.close(store, f);
        }
    }
}
