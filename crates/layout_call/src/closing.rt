// What closing a document adds, by the mode.
ghost use Rattle.std.specs.Prelude.{◌≡◌, ltb, length};
ghost use Rattle.acts.specs.Laid.{Room};
ghost use Rattle.acts.specs.Does.{Does};
ghost use Rattle.whole_run.specs.Built.{declared};
ghost use Rattle.layout_call.specs.ByFile.{of_file, waits, closes};

use crate::accepted::Accepted;
use crate::modes::NEW_MODE;
use acts::State;
use acts::leaves::Leaf;
use comments::{Kept, pop_whitespace};

// Whether there is a declaration: the first of them would start before they end.
fn has_declarations(file: Accepted<'_>) -> bool
    ensures { result ≡ ltb 0 (length (of_file declared file.entry)) }
{
    file.parsed.second(file.doc.tree) < file.parsed.past(file.doc.tree)
}

// Places the comments that wait, "as `pop_whitespace` does when asked for the source length".
fn place_waiting(layout: &mut State<'_>, file: Accepted<'_>)
    requires { Room (waits file) layout.old.cursor }
    ensures { Does (waits file.entry) layout.old layout.new }
{
    let kept = Kept {
        leading: has_declarations(file),
        ..Kept::NONE
    };
    pop_whitespace(layout, &file.parsed, file.parsed.source.len() as u32, &kept);
}

// The final `Line`, in the new mode after the comments that wait.
pub(crate) fn close_document(layout: &mut State<'_>, file: Accepted<'_>, mode: usize)
    requires { Room (closes file mode) layout.old.cursor }
    ensures { Does (closes file.entry mode) layout.old layout.new }
{
    if mode == NEW_MODE {
        place_waiting(layout, file);
    }
    layout.push(Leaf::Line);
}
