// What a layout call lays, from one declaration up to another.
ghost use Rattle.std.specs.Prelude.{◌≡◌, not, ◌≤◌, length};
ghost use Rattle.acts.specs.Act.{when};
ghost use Rattle.acts.specs.Laid.{Room, Laid};
ghost use Rattle.acts.specs.Does.{Does};
ghost use Rattle.whole_run.specs.Built.{declared};
ghost use Rattle.layout_call.specs.Steps.{start_of, from_of, call_act};
ghost use Rattle.layout_call.specs.ByFile.{of_file, begins, closes};
ghost use Rattle.layout_call.specs.ByCall.{of_call};

use crate::LayoutArgs;
use crate::accepted::Accepted;
use crate::call::Call;
use crate::closing::close_document;
use acts::{Cursor, State};
use image::sizes::HEAD;
use layout::declarations::{declarations, shebang};

// How many declarations there are.
pub fn count_declarations(file: Accepted<'_>) -> usize
    ensures { result ≡ length (of_file declared file.entry) }
{
    let from = file.parsed.second(file.doc.tree);
    let to = file.parsed.past(file.doc.tree);
    file.parsed.records(from, to).count()
}

// Where declaration `k` starts, or, of the last one more, where they end.
fn declaration_at(file: Accepted<'_>, k: usize) -> usize
    requires { k ≤ length (of_file declared file) }
    ensures { result ≡ of_file start_of file.entry file.entry.doc.tree k }
{
    let from = file.parsed.second(file.doc.tree);
    let to = file.parsed.past(file.doc.tree);
    file.parsed.records(from, to).nth(k).unwrap_or(to)
}

// "The first call lays the shebang"
// kept: here and in `end` the flag is one that C lends, so that no caller has a step to pass; it is tested once.
fn begin(layout: &mut State<'_>, file: Accepted<'_>, begun: bool)
    requires { Room (when (not begun) (begins file)) layout.old.cursor }
    ensures { Does (when (not begun) (begins file.entry)) layout.old layout.new }
{
    if begun {
        return;
    }
    shebang(layout, &file.parsed, file.doc.tree + HEAD);
}

// "closing .. adds the final `Line`", by the mode
fn end(layout: &mut State<'_>, file: Accepted<'_>, args: LayoutArgs)
    requires { Room (when args.close (closes file args.mode)) layout.old.cursor }
    ensures { Does (when args.close (closes file.entry args.mode)) layout.old layout.new }
{
    if args.close {
        close_document(layout, file, args.mode);
    }
}

impl Call<'_> {
    // The shebang if nothing is laid yet, the declarations from one up to another, what closing adds if the call closes.
    fn lay(&self, layout: &mut State<'_>)
        requires { Room (of_call call_act self.now) layout.old.cursor }
        ensures { Does (of_call call_act self.now) layout.old layout.new }
    {
        let file = self.file;
        let from = self.state.declaration;
        begin(layout, file, self.state.begun);
        let p = declaration_at(file, from);
        let q = declaration_at(file, self.args.stop);
        declarations(layout, &file.parsed, p, q, from == 0);
        end(layout, file, self.args);
    }

    // The same in a store, from the state's cursor on; it returns the cursor behind it.
    pub(crate) fn lay_all(&self, store: &mut [u32]) -> Cursor
        ensures { Laid (of_call call_act self.now) store.old (from_of self.now.state) store.new result }
    {
        let cursor = self.cursor();
        let mut layout = State { store, cursor };
        self.lay(&mut layout);
        layout.cursor
    }
}
