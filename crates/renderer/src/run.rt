// `Renderer` of fmt.rs over rows, and what it is given.
use crate::frames::Frames;
use crate::writing::Writing;
use rows::units::Columns;

// What a rendering changes: the marks of groups that have wrapped, the output, the text so far, the open rows and the next row; and the row that would
// be next with the allotment spent, if all rows ahead were entered.
#[derive(Drop)]
pub struct Renderer<'a> {
    pub marks: &'a mut [u8],
    pub out: &'a mut [u8],
    pub max: Columns,
    pub writing: Writing,
    pub frames: Frames,
    pub next: usize,
    pub mark: usize,
}

// `max` of fmt.rs, in columns; the row to stop before.
#[derive(Clone, Copy, Debug, PartialEq, Eq)]
pub struct Bounds {
    pub max: Columns,
    pub stop: usize,
}
