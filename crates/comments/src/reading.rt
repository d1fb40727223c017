// The source, read from a position.
ghost use Rattle.std.specs.Prelude.{◌≡◌};
ghost use Rattle.text.specs.Newlines.{count_newlines};
ghost use Rattle.text.specs.Space.{something};

use text::newlines::{Newlines, count_newlines};
use text::space::find_something;

#[derive(Clone, Copy)]
pub struct Reading<'a> {
    pub source: &'a [u8],
    pub at: usize,
}

impl Reading<'_> {
    // The newlines from the position up to `to`.
    pub(crate) fn newlines_up_to(self, to: usize) -> Newlines
        ensures { result ≡ count_newlines self.entry.source.now self.entry.at to }
    {
        count_newlines(self.source, self.at, to)
    }

    // The first place from the position on that is not white space or is a newline.
    pub(crate) fn next_something(self) -> Option<usize>
        ensures { result ≡ something self.entry.source.now self.entry.at }
    {
        find_something(self.source, self.at)
    }
}
