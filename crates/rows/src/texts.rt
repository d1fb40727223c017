// The rows of a store, with the texts that they refer to.
#[derive(Clone, Copy)]
pub struct Rows<'a> {
    pub store: &'a [u32],
    pub source: &'a [u8],
    pub image: &'a [u8],
}
