// The comments at the start of a list of steps.
ghost use Rattle.std.specs.Prelude.{◌≡◌, ◌≤◌};
ghost use Rattle.image.specs.Limits.{MAX_COMMENTS};
ghost use Rattle.image.specs.Read.{bind};
ghost use Rattle.tree.specs.Contents.{pair_bytes};
ghost use Rattle.steps.specs.Writer.{step_from, pair_by, comments_from};
ghost use Rattle.writer.specs.Put.{Same, put_of, put_by};
ghost use Rattle.writer.specs.Steps.{taken};

use crate::output::Output;
use crate::step::{COMMENT_BYTES, Code, Step};
use image::bytes::num32;
use image::limits::MAX_COMMENTS;
use refusals::{Reason, Refused};

impl Step<'_> {
    // Whether a comment stands here that is neither empty nor reversed, and starts at `least` or after it.
    #[tactic(auto, using(crate::proofs::Seen::room_for))]
    fn pair_fits(&self, least: usize) -> bool
        ensures { result ≡ taken (bind (step_from self.now.steps.now self.now.at) (pair_by least self.now.at)) }
    {
        if !self.stands(Code::Comment, COMMENT_BYTES) {
            return false;
        }
        let start = num32(self.steps, self.at + 1);
        least <= start && start < num32(self.steps, self.at + 5)
    }
}

// Puts the comments, up to the first other step.
pub(crate) fn put_comments(steps: &[u8], out: &mut Output) -> Result<usize, Refused>
    requires { out.old.pos ≤ 7 }
    ensures put { put_of result out.new ≡ put_by pair_bytes out.old.pos out.old.bytes.now (comments_from steps.now MAX_COMMENTS 0 0) }
    ensures same { Same out.old out.new }
{
    let mut left = MAX_COMMENTS;
    let mut least = 0;
    let mut here = Step { steps, at: 0 };
    // kept: as a loop: it goes on while a comment stands there, and answers where none does; an iterator of comments would lose that place. `left`
    // counts down beside it, since one comment too many is refused where it stands, which a range would leave to a test behind it. `least` is the end
    // of the comment before.
    while here.stands(Code::Comment, 1) {
        if left == 0 {
            return Err(Reason::Steps.at(here.at));
        }
        if !here.pair_fits(least) {
            return Err(Reason::Steps.at(here.at));
        }
        least = num32(steps, here.at + 5);
        let next = here.at + COMMENT_BYTES;
        out.copy(&steps[here.at + 1..next]);
        left -= 1;
        here.go_to(next);
    }
    Ok(here.at)
}
