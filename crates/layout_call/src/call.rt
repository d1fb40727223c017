// A layout call on a source and an image that are accepted.
ghost use Rattle.layout_call.specs.Steps.{Goes};

use crate::accepted::Accepted;
use crate::{LayoutArgs, LayoutState};

// A call whose state and arguments 12 does not refuse.
#[derive(Clone, Copy)]
pub(crate) struct Call<'a> {
    pub file: Accepted<'a>,
    pub state: LayoutState,
    pub args: LayoutArgs,
    pub ghost goes: { Goes file.parsed.source.now file.parsed.image.now file.doc state args },
}
