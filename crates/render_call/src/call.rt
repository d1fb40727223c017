// What a rendering call reads.
use crate::{RenderArgs, RenderState};

// The texts, the state and the arguments of a call. Its store, its marks and its output are lent beside it.
#[derive(Clone, Copy)]
pub struct Call<'a> {
    pub source: &'a [u8],
    pub image: &'a [u8],
    pub state: RenderState,
    pub args: RenderArgs,
}
