// The payload of a record, directly behind the step that opens it.
ghost use Rattle.std.specs.Prelude.{◌≡◌, ◌*◌, ◌≤◌};
ghost use Rattle.image.specs.KindNumbers.{kind_number};
ghost use Rattle.image.specs.Places.{due_number};
ghost use Rattle.image.specs.Read.{bind};
ghost use Rattle.steps.specs.Writer.{step_from, text_by, byte_by};
ghost use Rattle.writer.specs.Put.{Same, put_of, put_by, payload_put};

use crate::output::Output;
use crate::step::{Code, Step, TEXT_BYTES};
use image::bytes::num32;
use image::grammar::{Due, is_text};
use image::kinds::Kind;
use refusals::{Reason, Refused};

// kept: each function here and `put_record` asks for `pos ≤ 2 * at`, at most two bytes put for one read. It is no invariant: between two children
// there may be a byte more.

impl Step<'_> {
    // Puts the width and the text that stand here.
    #[tactic(auto, using(crate::proofs::Seen::room_for))]
    fn put_text(&self, out: &mut Output) -> Result<usize, Refused>
        requires { out.old.pos ≤ 2 * self.now.at }
        ensures put { put_of result out.new
            ≡ put_by (λ x. x) out.old.pos out.old.bytes.now (bind (step_from self.now.steps.now self.now.at) (text_by self.now.at)) }
        ensures same { Same out.old out.new }
    {
        if !self.stands(Code::Text, TEXT_BYTES) {
            return Err(Reason::Steps.at(self.at));
        }
        let steps = self.steps;
        let text = self.at + TEXT_BYTES;
        let n = num32(steps, self.at + 3);
        if steps.len() - text < n {
            return Err(Reason::Steps.at(self.at));
        }
        let end = text + n;
        if !is_text(steps, text, end) {
            return Err(Reason::Steps.at(self.at));
        }
        out.copy(&steps[self.at + 1..self.at + 3]);
        out.copy(&steps[text..end]);
        Ok(end)
    }

    // Puts the payload byte that stands here, which is `top` at most.
    #[tactic(auto, using(crate::proofs::Seen::room_for))]
    fn put_byte(&self, top: u8, out: &mut Output) -> Result<usize, Refused>
        requires { out.old.pos ≤ 2 * self.now.at }
        ensures put { put_of result out.new
            ≡ put_by (λ x. x) out.old.pos out.old.bytes.now (bind (step_from self.now.steps.now self.now.at) (byte_by self.now.at top)) }
        ensures same { Same out.old out.new }
    {
        if !self.stands(Code::Payload, 2) {
            return Err(Reason::Steps.at(self.at));
        }
        let byte = self.steps[self.at + 1];
        if top < byte {
            return Err(Reason::Steps.at(self.at));
        }
        out.put(byte);
        Ok(self.at + 2)
    }

    // Puts the payload, here, of a record of this kind where this is due.
    #[tactic(auto, using(crate::proofs::Runs::none_held), unfolding(steps::specs::Writer::payload_from))]
    pub(crate) fn put_payload(
        &self,
        due: Due,
        kind: Kind,
        out: &mut Output,
    ) -> Result<usize, Refused>
        requires { out.old.pos ≤ 2 * self.now.at }
        ensures put { put_of result out.new ≡ payload_put out.old self.now (due_number due) (kind_number kind) }
        ensures same { Same out.old out.new }
    {
        if kind.is_text() {
            return self.put_text(out);
        }
        if kind.has_byte() {
            return self.put_byte(due.top_byte(kind), out);
        }
        Ok(self.at)
    }
}
