// The frames of a buffer: two four-byte lengths, source, image.
ghost use Rattle.std.specs.Prelude.{◌≡◌, ◌-◌, ◌<◌, length, MatchOption};
ghost use Rattle.std.specs.Iterator.{at_most};
ghost use Rattle.refusals.specs.Reasons.{answer_of};
ghost use Rattle.batch.specs.Batch.{frame_end, all_saves};
ghost use Rattle.batch.specs.Whole.{frames_by, IsFrame, GivesFrame};

use image::bytes::num32;
use refusals::{Reason, Refused};

// How many files a buffer may hold.
const MAX_SAVES: usize = 256;

// The bytes of a frame's two lengths, and of the first of them.
const HEAD: usize = 8;

const LENGTH: usize = 4;

// A frame of the buffer: the file that it holds, and where it ends.
#[derive(Clone, Copy)]
pub(crate) struct Frame<'a> {
    pub(crate) source: &'a [u8],
    pub(crate) image: &'a [u8],
    pub(crate) end: usize,
}

// The frames of a buffer from a place on, up to the first that runs past the end.
#[derive(Drop)]
pub(crate) struct Frames<'a> {
    frames: &'a [u8],
    at: usize,
}

impl<'a> Frames<'a> {
    pub(crate) fn new(frames: &'a [u8]) -> Self
        ensures { (result.frames.now ≡ frames.now) × (result.at ≡ 0) }
    {
        Self { frames, at: 0 }
    }
}

impl<'a> Iterator for Frames<'a> {
    type Item = Frame<'a>;

    ghost next_gives = { GivesFrame };

    ghost remaining = { λ s. at_most (length s.frames.now - s.at) };

    fn next(&mut self) -> Option<Frame<'a>> {
        let frame = frame_at(self.frames, self.at)?;
        self.at = frame.end;
        Some(frame)
    }
}

// The frame at `at`, if it ends in the buffer.
fn frame_at(frames: &[u8], at: usize) -> Option<Frame<'_>>
    ensures { MatchOption result (length frames.now < frame_end frames.now at) (IsFrame frames.now at) }
{
    if frames.len() < HEAD || frames.len() - HEAD < at {
        return None;
    }
    let source = at + HEAD;
    let image = source + num32(frames, at);
    let end = image + num32(frames, at + LENGTH);
    if frames.len() < end {
        return None;
    }
    Some(Frame {
        source: &frames[source..image],
        image: &frames[image..end],
        end,
    })
}

// Counts the frames, or refuses the first that is cut off or one too many.
#[tactic(auto, using(crate::proofs::Buffer::passed_none, crate::proofs::Buffer::passed_all, crate::proofs::Buffer::passed_many))]
pub(crate) fn count_frames(frames: &[u8]) -> Result<usize, Refused>
    ensures { answer_of (λ n. n) result ≡ frames_by (all_saves frames.now) }
{
    let mut at = 0;
    let mut files = 0;
    for frame in Frames::new(frames) {
        if files == MAX_SAVES {
            return Err(Reason::Frames.at(at));
        }
        at = frame.end;
        files += 1;
    }
    if at < frames.len() {
        return Err(Reason::Frames.at(at));
    }
    Ok(files)
}
