// Rows without parts.
ghost use Rattle.std.specs.Prelude.{◌≡◌, ◌+◌, ◌*◌, ◌≤◌, ◌<◌, length, cond, eqb};
ghost use Rattle.rows.specs.Kinds.{WRAP_PARENT, STR, LINE_OR_SPACE, number_of};
ghost use Rattle.rows.specs.Places.{KIND, SIZE, WIDTH, PLACES, RowIn};
ghost use Rattle.rows.specs.Limits.{CELL_LIMIT};
ghost use Rattle.rows.specs.View.{cell};
ghost use Rattle.renderer.specs.Limits.{BEFORE_ROW};
ghost use Rattle.renderer.specs.Writing.{WritesLeaf, WritingRoom};

use crate::writing::Writing;
use renderer_rules::texts::row_text;
use rows::kinds::Kind;
use rows::store::{str_width, text_size};
use rows::texts::Rows;
use rows::units::{Columns, ascii_columns};

// A row without parts: its kind, and whether the part that it is in wraps.
#[derive(Clone, Copy)]
pub struct LeafRow {
    pub row: usize,
    pub kind: Kind,
    pub wrap: bool,
}

// How many columns the text of a `Str` or an `Ascii` has.
#[inline(always)]
fn text_columns(store: &[u32], l: LeafRow) -> Columns
    requires { RowIn store.now l.row }
    ensures columns { result.0 ≡ cond (eqb (number_of l.kind) STR) (cell store.now l.row WIDTH) (cell store.now l.row SIZE) }
    ensures small { result.0 < CELL_LIMIT }
{
    if l.kind == Kind::Str {
        str_width(store, l.row)
    } else {
        ascii_columns(text_size(store, l.row))
    }
}

impl Writing {
    // What a row without parts writes.
    // kept: a choice by a kind, which is read from the row, and not among steps that a caller has; output and promises as in writing.rt.
    pub(crate) fn leaf(&mut self, out: &mut [u8], rows: Rows<'_>, l: LeafRow)
        requires room { WritingRoom BEFORE_ROW (length out.old) out.old self.old }
        requires row { l.row * PLACES + WIDTH < length rows.store.now }
        requires kind { cell rows.store.now l.row KIND ≡ number_of l.kind }
        requires whole { (WRAP_PARENT ≤ number_of l.kind) × (number_of l.kind ≤ LINE_OR_SPACE) }
        ensures { WritesLeaf rows.entry l out.old self.old out.new self.new }
    {
        match l.kind {
            Kind::WrapParent => {}
            Kind::Comment => self.comment(out, row_text(rows, l.row)),
            Kind::Line => {
                if l.wrap {
                    self.new_line(out);
                }
            }
            Kind::EmptyLine => self.empty_line(out),
            Kind::LineOrSpace => {
                if l.wrap {
                    self.new_line(out);
                } else {
                    // kept: as bytes: `text` takes bytes, which is what rows refer to
                    self.text(out, b" ", Columns(1));
                }
            }
            _ => self.text(out, row_text(rows, l.row), text_columns(rows.store, l)),
        }
    }
}
