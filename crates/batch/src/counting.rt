// The bytes of all texts, counted before anything is written.
ghost use Rattle.std.specs.Prelude.{◌≡◌, length};
ghost use Rattle.image.specs.Read.{read_refusal};
ghost use Rattle.file.specs.Whole.{to_choice};
ghost use Rattle.batch.specs.Batch.{all_saves, texts_due};
ghost use Rattle.batch.specs.Whole.{saved, text_of};

use crate::frames::{Frame, Frames};
use file::{CELLS, FileChoice, MARKS, format_lent};
use refusals::{Reason, Refused};

// The bytes of the text of a frame's file, none where it is refused: it is formatted without an output.
#[tactic(auto, using(crate::proofs::Steps::size_text))]
fn text_size(
    frame: &Frame,
    store: &mut [u32; CELLS],
    used: &mut [u8; MARKS],
    choice: FileChoice,
) -> usize
    ensures { result ≡ length (text_of (to_choice choice) (saved frame.now)) }
{
    match format_lent(frame.source, frame.image, store, used, &mut [], choice) {
        Ok(text) => text.bytes.0,
        Err(
            Refused {
                reason: Reason::BytesNeeded,
                place,
            },
        ) => place,
        Err(_) => 0,
    }
}

// The bytes of the texts of all files.
#[tactic(auto, using(crate::proofs::Texts::adding_none, crate::proofs::Texts::frame_added))]
pub(crate) fn count_texts(
    frames: &[u8],
    store: &mut [u32; CELLS],
    used: &mut [u8; MARKS],
    choice: FileChoice,
) -> usize
    requires { read_refusal (all_saves frames.now) ≡ None }
    ensures { result ≡ length (texts_due (to_choice choice) frames.now) }
{
    let mut bytes = 0;
    for frame in Frames::new(frames) {
        bytes += text_size(&frame, store, used, choice);
    }
    bytes
}
