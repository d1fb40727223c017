// 23: whether the rows listed can be closed.
ghost use Rattle.std.specs.Prelude.{◌≡◌, ◌<◌, ◌≤◌, true, length, map};
ghost use Rattle.rows.specs.Places.{KIND, RowIn};
ghost use Rattle.rows.specs.View.{view_of, cell};
ghost use Rattle.renderer_rules.specs.Limits.{MAX_INDENT};
ghost use Rattle.renderer_rules.specs.Listed.{can_close, can_close_all};
ghost use Rattle.listed_rows.specs.Numbers.{open_row, AllIn, Closes};

use crate::number::listed_row;
use renderer_rules::Pen;
use rows::kinds::Kind;
use rows::store::row_kind;

// Closes a row of a kind, if what its end takes back is there.
fn close(pen: &mut Pen, kind: Option<Kind>, wraps: bool, deeper: bool) -> bool
    ensures { Closes kind wraps deeper pen.old result pen.new }
{
    match kind {
        Some(Kind::Indent) => {
            if wraps && pen.indent == 0 {
                return false;
            }
            pen.indent_less(wraps);
        }
        Some(Kind::IndentNext) => {
            if wraps && pen.indent == 0 && pen.next_indent == 0 {
                return false;
            }
            pen.next_indent_less(wraps);
        }
        Some(Kind::Call) => {
            if deeper && pen.indent == 0 && pen.next_indent == 0 {
                return false;
            }
            pen.next_indent_less(deeper);
        }
        _ => {}
    }
    true
}

// Whether these rows can be closed, the last first.
pub fn closes_all(store: &[u32], listed: &[u32], pen: Pen) -> bool
    requires { AllIn store.now listed.now }
    ensures { result ≡ can_close_all (view_of store.now) (map open_row listed.now) pen }
{
    let mut left = pen;
    for place in (0..listed.len()).rev() {
        let number = listed[place];
        let kind = row_kind(store, listed_row(number));
        if !close(&mut left, kind, number % 2 == 1, number / 2 % 3 == 2) {
            return false;
        }
    }
    true
}
