// How a row with parts is opened, and how the second part of a `Call` is.
ghost use Rattle.std.specs.Prelude.{◌≡◌, ℕ, ◌+◌, ◌*◌, ◌≤◌, ◌<◌, true, false, cond, not, ◌&&◌, List, length, eqb};
ghost use Rattle.rows.specs.Kinds.{GROUP, INDENT, WRAP_PARENT, LINE_OR_SPACE, number_of};
ghost use Rattle.rows.specs.Places.{KIND, NUMBER, SECOND, AFTER, WIDTH, PLACES};
ghost use Rattle.rows.specs.Limits.{MAX_ROWS, MAX_DEPTH};
ghost use Rattle.renderer.specs.Limits.{MAX_MARGIN};
ghost use Rattle.rows.specs.Node.{wrapped};
ghost use Rattle.rows.specs.View.{cell, view_of};
ghost use Rattle.rows.specs.Nesting.{Nested};
ghost use Rattle.renderer_rules.specs.Renderer.{indent_more, next_indent_more};
ghost use Rattle.renderer_rules.specs.Page.{page_of};
ghost use Rattle.renderer_rules.specs.Frames.{wrap_at};
ghost use Rattle.renderer_rules.specs.Machine.{frame_of, enter};
ghost use Rattle.renderer.specs.Writing.{set_pen};
ghost use Rattle.renderer.specs.Run.{run_of, opened_run, Turns, Enters, OpensRow, HasMargin};
ghost use Rattle.renderer.specs.Run.{GroupOpened, CallOpened, ArgumentsOpened, Unmarked, Unwritten};

use crate::marks::insert;
use crate::run::Renderer;
use renderer_rules::Frame;
use rows::kinds::Kind;
use rows::places::{AFTER, NUMBER, SECOND, SECOND_NUMBER};
use rows::store::place;
use rows::wrap::is_wrapped;

// Whether the group that the second branch of `Call` makes up wraps. In the first branch the callee has room on its line, and doesn't wrap.
fn made_up(trailing: bool, over: bool) -> bool
    ensures { result ≡ (not trailing && over) }
{
    !trailing && over
}

impl Renderer<'_> {
    // A row is opened, at one of its parts.
    fn open(&mut self, f: Frame, next: usize)
        requires { self.old.frames.depth < MAX_DEPTH }
        ensures run { run_of self.new ≡ opened_run (run_of self.old) f next self.old.writing }
        ensures unmarked { Unmarked self.old self.new }
    {
        self.frames.push(f);
        self.next = next;
    }

    // A row with parts is opened; `wrap` says whether the part that it is in wraps, as `render_node` is told.
    // kept: a choice by a kind, which is read from the row, and not among steps that a caller has.
    pub(crate) fn open_row(&mut self, store: &[u32], wrap: bool, kind: Kind)
        requires opens { OpensRow store.now self.old.max.0 self.old.marks.now (run_of self.old) }
        requires wrap { wrap ≡ wrap_at self.old.frames.items self.old.frames.depth }
        requires kind { cell store.now self.old.next KIND ≡ number_of kind }
        requires parts { WRAP_PARENT ≤ number_of kind → LINE_OR_SPACE < number_of kind }
        ensures { (source image : List ℕ) → Turns (enter (view_of store.now) (page_of self.old.max.0 source image)) self.old self.new }
    {
        match kind {
            Kind::Group => self.enter_group(store),
            Kind::Call => self.enter_call(store),
            Kind::IfWrap => self.enter_if(store, wrap),
            _ => self.enter_indent(wrap, kind),
        }
    }

    // A `Group` is opened.
    fn enter_group(&mut self, store: &[u32])
        requires { Enters store.now (run_of self.old) × Nested store.now (self.old.next + 1) (cell store.now self.old.next AFTER) }
        ensures opened { GroupOpened store.now self.old.max.0 self.old.marks.now (run_of self.old) self.new.marks.now (run_of self.new) }
        ensures unwritten { Unwritten self.old self.new }
    {
        let row = self.next;
        let end = place(store, row, AFTER);
        let number = place(store, row, NUMBER);
        let wraps = self.group_wraps(store, row + 1, end);
        insert(self.marks, number, wraps);
        let f = Frame {
            row: row as u32,
            wrap: wraps,
            first: false,
            deeper: false,
            made: false,
        };
        self.open(f, row + 1);
    }

    // An `Indent` or an `IndentNext` is opened.
    fn enter_indent(&mut self, wrap: bool, kind: Kind)
        requires depth { self.old.frames.depth < MAX_DEPTH }
        requires few { self.old.next < MAX_ROWS }
        requires indent { self.old.writing.pen.indent + self.old.writing.pen.next_indent ≤ MAX_MARGIN }
        requires kind { (GROUP < number_of kind) × (number_of kind < WRAP_PARENT) }
        ensures run { run_of self.new
            ≡ opened_run (run_of self.old) (frame_of self.old.next wrap false) (self.old.next + 1)
            (set_pen (cond (eqb (number_of kind) INDENT) (indent_more wrap self.old.writing.pen) (next_indent_more wrap self.old.writing.pen))
            self.old.writing) }
        ensures unmarked { Unmarked self.old self.new }
    {
        let row = self.next;
        let f = Frame {
            row: row as u32,
            wrap,
            first: false,
            deeper: false,
            made: false,
        };
        self.open(f, row + 1);
        if matches!(kind, Kind::Indent) {
            self.writing.pen.indent_more(wrap);
        } else {
            self.writing.pen.next_indent_more(wrap);
        }
    }

    // Whether the group of a number has wrapped.
    fn has_wrapped(&self, number: usize) -> bool
        ensures { result ≡ wrapped self.now.marks.now number }
    {
        is_wrapped(self.marks, number)
    }

    // An `IfWrap` is opened at the part that is chosen.
    fn enter_if(&mut self, store: &[u32], wrap: bool)
        requires { Enters store.now (run_of self.old) }
        ensures run { run_of self.new
            ≡ cond (wrapped self.old.marks.now (cell store.now self.old.next NUMBER))
            (opened_run (run_of self.old) (frame_of self.old.next wrap true) (self.old.next + 1) self.old.writing)
            (opened_run (run_of self.old) (frame_of self.old.next wrap false) (cell store.now self.old.next SECOND) self.old.writing) }
        ensures unmarked { Unmarked self.old self.new }
    {
        let row = self.next;
        let first = self.has_wrapped(place(store, row, NUMBER));
        let f = Frame {
            row: row as u32,
            wrap,
            first,
            deeper: false,
            made: false,
        };
        if first {
            self.open(f, row + 1);
        } else {
            self.open(f, place(store, row, SECOND));
        }
    }

    // A `Call` is opened at its callee.
    fn enter_call(&mut self, store: &[u32])
        requires enters { Enters store.now (run_of self.old) }
        requires callee { Nested store.now (self.old.next + 1) (cell store.now self.old.next SECOND) }
        requires arguments { Nested store.now (cell store.now self.old.next SECOND) (cell store.now self.old.next AFTER) }
        ensures opened { CallOpened store.now self.old.max.0 self.old.marks.now (run_of self.old) self.new.marks.now (run_of self.new) }
        ensures unwritten { Unwritten self.old self.new }
    {
        let row = self.next;
        let mid = place(store, row, SECOND);
        let end = place(store, row, AFTER);
        let number = place(store, row, NUMBER);
        let over = self.exceeds(store, row + 1, end);
        let trailing = self.trailing_call(store, over, row + 1, mid, end);
        let wraps = made_up(trailing, over);
        insert(self.marks, number, wraps);
        let f = Frame {
            row: row as u32,
            wrap: wraps,
            first: true,
            deeper: wraps,
            made: !trailing,
        };
        self.open(f, row + 1);
        self.writing.pen.next_indent_more(wraps);
    }

    // The callee of a `Call` is done: its arguments are opened.
    pub(crate) fn enter_arguments(&mut self, store: &[u32], f: Frame)
        requires depth { (0 < self.old.frames.depth) × (self.old.frames.depth ≤ MAX_DEPTH) }
        requires row { (f.row * PLACES + WIDTH < length store.now) × (f.row < MAX_ROWS) }
        requires nested { Nested store.now self.old.next (cell store.now f.row AFTER) }
        requires margin { HasMargin self.old.writing.pen }
        ensures opened { ArgumentsOpened store.now self.old.max.0 self.old.marks.now (run_of self.old) f self.new.marks.now (run_of self.new) }
        ensures unwritten { Unwritten self.old self.new }
    {
        let row = f.row as usize;
        let end = place(store, row, AFTER);
        let number = place(store, row, SECOND_NUMBER);
        let next = self.next;
        let wrap = self.group_wraps(store, next, end);
        insert(self.marks, number, wrap);
        self.frames.replace(Frame {
            wrap,
            first: false,
            ..f
        });
    }
}
