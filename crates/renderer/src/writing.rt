// A text that is being written, and what `Renderer` of fmt.rs does to it: `new_line`, `comment` and `text`.
ghost use Rattle.std.specs.Prelude.{◌≡◌, ◌+◌, ◌*◌, ◌≤◌, ◌<◌, true, false, [], ◌∷◌, length};
ghost use Rattle.rows.specs.Limits.{CELL_LIMIT};
ghost use Rattle.renderer.specs.Limits.{MAX_MARGIN, BEFORE_ROW, IN_ROW};
ghost use Rattle.renderer_rules.specs.Renderer.{fresh_renderer, push_str, new_line, margin, comment, text};
ghost use Rattle.renderer.specs.Writing.{moved_to, before_text, Writes, WritingRoom};

use crate::output::{copy, emit, spaces};
use renderer_rules::Pen;
use rows::units::{Bytes, Columns};

// A text that is being written: the pen, how many bytes are written, and the greatest value that `column` was set to.
// kept: each method has its own `requires` of room and `Writing` no invariant: how much room is left depends on the rows to come, which only
// the loop over rows knows.
#[derive(Clone, Copy, Debug, PartialEq, Eq)]
pub struct Writing {
    pub pen: Pen,
    pub at: Bytes,
    pub widest: Columns,
}

impl Writing {
    // The pen is at a column, once `at` bytes are written.
    fn move_to(&mut self, column: Columns, at: Bytes)
        ensures { self.new ≡ moved_to column.0 at.0 self.old }
    {
        self.pen.column = column;
        self.at = at;
        self.widest = Columns(self.widest.0.max(column.0));
    }

    // Writes one byte that takes no column.
    fn push(&mut self, out: &mut [u8], b: u8)
        requires { WritingRoom IN_ROW (length out.old) out.old self.old }
        ensures { Writes (length out.old) (push_str (b ∷ []) (fresh_renderer self.old.pen [])) out.old self.old out.new self.new }
    {
        emit(out, self.at.0, b);
        self.at.0 += 1;
    }

    // The indent of a line that starts here.
    fn start_line(&mut self, out: &mut [u8])
        requires { WritingRoom IN_ROW (length out.old) out.old self.old }
        ensures { Writes (length out.old) (margin (fresh_renderer self.old.pen [])) out.old self.old out.new self.new }
    {
        let margin = margin_bytes(self.pen.indent);
        spaces(out, self.at.0, margin.0);
        self.move_to(margin_columns(self.pen.indent), self.at + margin);
    }

    // `new_line`
    pub(crate) fn new_line(&mut self, out: &mut [u8])
        requires { WritingRoom IN_ROW (length out.old) out.old self.old }
        ensures { Writes (length out.old) (new_line (fresh_renderer self.old.pen [])) out.old self.old out.new self.new }
    {
        if 0 < self.pen.column.0 {
            self.push(out, b'\n');
        }
        self.pen.break_line();
    }

    // An `EmptyLine`.
    pub(crate) fn empty_line(&mut self, out: &mut [u8])
        requires { WritingRoom BEFORE_ROW (length out.old) out.old self.old }
        ensures { Writes (length out.old) (new_line (push_str (0x0A ∷ []) (fresh_renderer self.old.pen []))) out.old self.old out.new self.new }
    {
        self.push(out, b'\n');
        self.new_line(out);
    }

    // What `text` writes before a text: the indent of a line that starts here.
    fn start_text(&mut self, out: &mut [u8])
        requires { WritingRoom BEFORE_ROW (length out.old) out.old self.old }
        ensures { Writes (length out.old) (before_text false (fresh_renderer self.old.pen [])) out.old self.old out.new self.new }
    {
        if self.pen.column.0 == 0 {
            self.start_line(out);
        }
    }

    // What `comment` writes before one: the same, or a blank.
    fn start_comment(&mut self, out: &mut [u8])
        requires { WritingRoom BEFORE_ROW (length out.old) out.old self.old }
        ensures { Writes (length out.old) (before_text true (fresh_renderer self.old.pen [])) out.old self.old out.new self.new }
    {
        if self.pen.column.0 == 0 {
            self.start_line(out);
        } else {
            self.push(out, b' ');
        }
    }

    // `text`, of bytes, as the texts of rows are.
    pub(crate) fn text(&mut self, out: &mut [u8], s: &[u8], size: Columns)
        requires room { WritingRoom BEFORE_ROW (length out.old) out.old self.old }
        requires small { (length s.now < CELL_LIMIT) × (size.0 < CELL_LIMIT) }
        ensures { Writes (length out.old) (text s.now size.0 (fresh_renderer self.old.pen [])) out.old self.old out.new self.new }
    {
        self.start_text(out);
        copy(out, self.at.0, s);
        self.move_to(self.pen.column + size, self.at + Bytes(s.len()));
    }

    // `comment`
    pub(crate) fn comment(&mut self, out: &mut [u8], s: &[u8])
        requires room { WritingRoom BEFORE_ROW (length out.old) out.old self.old }
        requires small { length s.now < CELL_LIMIT }
        ensures { Writes (length out.old) (comment s.now (fresh_renderer self.old.pen [])) out.old self.old out.new self.new }
    {
        self.start_comment(out);
        copy(out, self.at.0, s);
        let at = self.at + Bytes(s.len());
        emit(out, at.0, b'\n');
        self.move_to(Columns(0), at + Bytes(1));
    }
}

// A line's margin, four blanks a step, in bytes.
pub fn margin_bytes(indent: usize) -> Bytes
    requires { indent ≤ MAX_MARGIN }
    ensures { result.0 ≡ 4 * indent }
{
    Bytes(4 * indent)
}

// The same margin in columns.
pub(crate) fn margin_columns(indent: usize) -> Columns
    requires { indent ≤ MAX_MARGIN }
    ensures { result.0 ≡ 4 * indent }
{
    Columns(4 * indent)
}
