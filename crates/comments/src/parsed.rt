// What layout reads: a source and its image.
ghost use Rattle.std.specs.Prelude.{◌≡◌};
ghost use Rattle.tree.specs.CommentList.{comments_of};
ghost use Rattle.comments.specs.Comments.{nth};
ghost use Rattle.comments.specs.Listed.{Listed, pending_of};

use crate::Waiting;
use image::bytes::{num16, num32};
use image::sizes::{HEADER, PAIR, PAIRS};

/// A source with its image, whose comments lie in the source.
#[derive(Clone, Copy)]
pub struct Parsed<'a> {
    pub source: &'a [u8],
    pub image: &'a [u8],
    pub ghost listed: { Listed source.now image.now },
}

impl Parsed<'_> {
    // `comments.front()`, where so many comments are popped.
    pub(crate) fn front(&self, placed: u32) -> Option<Waiting>
        ensures { result ≡ pending_of (nth (comments_of self.now.image.now) placed) }
    {
        let image = self.image;
        let k = placed as usize;
        if k < num16(image, HEADER) {
            let at = PAIRS + PAIR * k;
            let start = num32(image, at) as u32;
            let end = num32(image, at + 4) as u32;
            return Some(Waiting { start, end });
        }
        None
    }
}
