// A file's source and image.
#[derive(Clone, Copy)]
pub struct Parts<'a> {
    pub source: &'a [u8],
    pub image: &'a [u8],
}
