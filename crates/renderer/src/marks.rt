// The marks of groups that wrap.
ghost use Rattle.std.specs.Prelude.{◌≡◌, cond, set};

use rows::store::put;

// Marks a group that wraps.
pub(crate) fn insert(marks: &mut [u8], number: usize, wraps: bool)
    ensures { marks.new ≡ cond wraps (set marks.old number 1) marks.old }
{
    if wraps {
        put(marks, number, 1);
    }
}
