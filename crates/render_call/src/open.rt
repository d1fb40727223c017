// The open rows of a rendering: from the rows that a state lists, and back.
ghost use Rattle.std.specs.Prelude.{◌≡◌, ◌≤◌, ◌<◌, ℕ, List, length, map, take, replicate};
ghost use Rattle.rows.specs.Limits.{MAX_ROWS, MAX_DEPTH};
ghost use Rattle.rows.specs.View.{view_of};
ghost use Rattle.renderer_rules.specs.Frames.{frame_at, no_frame};
ghost use Rattle.renderer_rules.specs.Stops.{listed_rows};
ghost use Rattle.cut_rule.specs.Run.{write_front};
ghost use Rattle.listed_rows.specs.Numbers.{row_number, AllIn};
ghost use Rattle.render_call.specs.Whole.{rows_open};

use crate::MAX_LISTED;
use listed_rows::number::{number_of, resume};
use renderer::frames::Frames;

// Opens the rows listed where none is open, with row `next` next. In place: made here and handed out, the open rows would be copied twice.
pub(crate) fn open_rows(frames: &mut Frames, store: &[u32], listed: &[u32], next: usize)
    requires within { AllIn store.now listed.now }
    requires few { length listed.now ≤ MAX_DEPTH }
    requires none { frames.old.items ≡ replicate MAX_DEPTH no_frame }
    ensures { (frames.new.depth ≡ length listed.now) × (frames.new.items ≡ rows_open (view_of store.now) next listed.now) }
{
    for place in 0..listed.len() {
        frames.items[place] = resume(store, listed[place], next);
    }
    frames.depth = listed.len();
}

// The open rows as a state lists them, over the front of a list.
pub(crate) fn list_rows(listed: &mut [u32; MAX_LISTED], frames: &Frames)
    requires deep { frames.now.depth ≤ MAX_DEPTH }
    requires rows { (j : ℕ) → j < frames.now.depth → (frame_at frames.now.items j).row < MAX_ROWS }
    ensures { listed.new ≡ write_front (map row_number (listed_rows frames.now.items frames.now.depth)) listed.old }
{
    for place in 0..frames.depth {
        listed[place] = number_of(frames.items[place]);
    }
}
