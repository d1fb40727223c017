// The reading position in an image.
ghost use Rattle.std.specs.Prelude.{◌≤◌, length};

// What is read: the part of an image from `at` up to `end`, where the record around it ends. Spans are those of the source; `left` levels of
// records are left.
#[derive(Clone, Copy)]
pub(crate) struct Reader<'a> {
    pub(crate) source: &'a [u8],
    pub(crate) image: &'a [u8],
    pub(crate) left: u32,
    pub(crate) at: usize,
    pub(crate) end: usize,
    ghost inside: { (at ≤ end) × (end ≤ length image.now) },
}
