// The open rows of a rendering.
ghost use Rattle.std.specs.Prelude.{◌≡◌, ◌+◌, ◌-◌, ◌≤◌, ◌<◌, true, false, cond, length, replicate, set, ltb};
ghost use Rattle.rows.specs.Limits.{MAX_DEPTH};
ghost use Rattle.renderer_rules.specs.Frames.{frame_at, no_frame};
ghost use Rattle.renderer_rules.specs.Machine.{frame_of};

use renderer_rules::Frame;
use rows::limits::MAX_DEPTH;

// What is around the rows where none is open: it wraps.
const AROUND: Frame = Frame {
    row: 0,
    wrap: true,
    first: false,
    deeper: false,
    made: false,
};

// What stands where no row is open: all 0, so that the list is made by clearing memory.
const NONE: Frame = Frame {
    row: 0,
    wrap: false,
    first: false,
    deeper: false,
    made: false,
};

// The open rows, the outermost first, and how many they are.
// kept: not the kit's `ArrayVec`, which tells of the open rows alone: the machine of the rules has the closed ones behind them in its list,
// so that each promise would be of every such list.
#[derive(Drop)]
pub struct Frames {
    pub items: [Frame; MAX_DEPTH],
    pub depth: usize,
}

impl Frames {
    pub fn new() -> Self
        ensures { (result.depth ≡ 0) × (length result.items ≡ MAX_DEPTH) × (result.items ≡ replicate MAX_DEPTH no_frame) }
    {
        Frames {
            items: [NONE; MAX_DEPTH],
            depth: 0,
        }
    }

    // The innermost open row.
    pub(crate) fn innermost(&self) -> Frame
        requires { self.now.depth ≤ MAX_DEPTH }
        ensures { result ≡ cond (ltb 0 self.now.depth) (frame_at self.now.items (self.now.depth - 1)) (frame_of 0 true false) }
    {
        if 0 < self.depth {
            self.items[self.depth - 1]
        } else {
            AROUND
        }
    }

    // A row is opened within the innermost.
    pub(crate) fn push(&mut self, f: Frame)
        requires { self.old.depth < MAX_DEPTH }
        ensures { self.new ≡ record { items = set self.old.items self.old.depth f; depth = self.old.depth + 1 } }
    {
        self.items[self.depth] = f;
        self.depth += 1;
    }

    // The innermost row is another from here on.
    pub(crate) fn replace(&mut self, f: Frame)
        requires { (0 < self.old.depth) × (self.old.depth ≤ MAX_DEPTH) }
        ensures { self.new ≡ record { items = set self.old.items (self.old.depth - 1) f; depth = self.old.depth } }
    {
        self.items[self.depth - 1] = f;
    }

    // The innermost row is closed.
    pub(crate) fn pop(&mut self)
        requires { 0 < self.old.depth }
        ensures { self.new ≡ record { items = self.old.items; depth = self.old.depth - 1 } }
    {
        self.depth -= 1;
    }
}
