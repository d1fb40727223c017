// The comment list: refusal 7.
ghost use Rattle.std.specs.Prelude.{◌≡◌, cond, ◌+◌, ◌*◌, ◌≤◌, length};
ghost use Rattle.refusals.specs.Reasons.{answer_of};
ghost use Rattle.image.specs.Bytes.{be32};
ghost use Rattle.image.specs.Read.{comment_fits, comments_from, comments, step_of};

use crate::bytes::{num16, num32};
use crate::limits::MAX_COMMENTS;
use crate::sizes::{HEADER, PAIR, PAIRS};
use refusals::{Reason, Refused};

// Whether the pair at `at` is a comment that starts at `least` or after it.
#[tactic(auto, unfolding(crate::specs::Read::comment_fits))]
fn comment_fits(source: &[u8], image: &[u8], least: usize, at: usize) -> bool
    requires { at + 8 ≤ length image.now }
    ensures { result ≡ comment_fits source.now image.now least at }
{
    let start = num32(image, at);
    let end = num32(image, at + 4);
    least <= start && start < end && text::newlines::is_range(source, start, end)
}

// Where the comment after the pair at `at` may start at the earliest: at its end if they are to be in order, and else anywhere.
fn least_after(image: &[u8], at: usize, ordered: bool) -> usize
    requires { at + 8 ≤ length image.now }
    ensures { result ≡ cond ordered (be32 image.now (at + 4)) 0 }
{
    if ordered { num32(image, at + 4) } else { 0 }
}

fn comments_from(source: &[u8], image: &[u8], count: usize, ordered: bool) -> Result<usize, Refused>
    requires { 7 + 8 * count ≤ length image.now }
    ensures { answer_of (λ n. n) result ≡ step_of (comments_from ordered source.now image.now count 0 7) }
{
    let mut least = 0;
    // kept: by the index, since a refusal names the place: `chunks` with `enumerate` would have both an index and a part.
    for i in 0..count {
        let at = PAIRS + PAIR * i;
        if !comment_fits(source, image, least, at) {
            return Err(Reason::Comments.at(at));
        }
        least = least_after(image, at, ordered);
    }
    Ok(PAIRS + PAIR * count)
}

// Reads the comment list, in order or not, to the tree.
#[tactic(auto, unfolding(crate::specs::Read::comments))]
pub(crate) fn read_comments(source: &[u8], image: &[u8], ordered: bool) -> Result<usize, Refused>
    ensures { answer_of (λ n. n) result ≡ step_of (comments ordered source.now image.now) }
{
    if image.len() < PAIRS {
        return Err(Reason::Comments.at(HEADER));
    }
    let count = num16(image, HEADER);
    if MAX_COMMENTS < count {
        return Err(Reason::Comments.at(HEADER));
    }
    if image.len() < PAIRS + PAIR * count {
        return Err(Reason::Comments.at(HEADER));
    }
    comments_from(source, image, count, ordered)
}
