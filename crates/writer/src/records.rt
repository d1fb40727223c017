// The records of a list of steps.
ghost use Rattle.std.specs.Prelude.{◌≡◌, false, ◌*◌, ◌≤◌};
ghost use Rattle.image.specs.Places.{due_number, row_number};
ghost use Rattle.writer.specs.Steps.{stands};
ghost use Rattle.writer.specs.Put.{AtChildren, Same, put_of, record_put, child_put, children_put};

use crate::output::Output;
use crate::step::{Code, OPEN_BYTES, Step};
use image::grammar::{Due, Place, after_row, is_over};
use image::sizes::LENGTH;
use refusals::{Reason, Refused};

impl Step<'_> {
    // Puts the child here, at the row's first place, where the record is not closed.
    #[cycle(putting)]
    #[tactic(auto, using(crate::proofs::Seen::room_for))]
    fn put_child(
        &self,
        left: u32,
        row: &'static [Place],
        out: &mut Output,
    ) -> Result<usize, Refused>
        requires due { AtChildren (row_number row.now) self.now.at out.old.pos }
        requires open { stands self.now.steps.now self.now.at 6 1 ≡ false }
        ensures put { put_of result out.new ≡ child_put out.old self.now left (row_number row.now) }
        ensures same { Same out.old out.new }
    {
        let Some(place) = row.first() else {
            return Err(Reason::Steps.at(self.at));
        };
        if self.stands(Code::Absent, 1) {
            if place.is_optional() {
                out.put32(0);
                return Ok(self.at + 1);
            }
            return Err(Reason::Steps.at(self.at));
        }
        if !self.stands(Code::Open, OPEN_BYTES) {
            return Err(Reason::Steps.at(self.at));
        }
        let end = self.put_record(left, place.due(), out)?;
        Ok(end)
    }

    // Puts the children of a record from here on, at these places, up to the step that closes it.
    #[cycle(putting)]
    fn put_children(
        &self,
        left: u32,
        places: &'static [Place],
        out: &mut Output,
    ) -> Result<usize, Refused>
        requires { AtChildren (row_number places.now) self.now.at out.old.pos }
        ensures put { put_of result out.new ≡ children_put out.old self.now left (row_number places.now) }
        ensures same { Same out.old out.new }
    {
        let mut here = *self;
        let mut row = places;
        // kept: as a loop: a child's end is what putting it answers, so that the `next` of an iterator would be this whole body.
        while !here.stands(Code::Close, 1) {
            let next = here.put_child(left, row, out)?;
            here.go_to(next);
            row = after_row(row);
        }
        if !is_over(row) {
            return Err(Reason::Steps.at(here.at));
        }
        Ok(here.at + 1)
    }

    // Puts the record that the step here opens, where this is due, and its length where it is closed; `left` levels of records are left.
    // kept: the `requires` is that of payload.rt, and no invariant, for the reason there.
    #[cycle(putting)]
    #[tactic(auto, using(crate::proofs::Seen::opened_room))]
    pub(crate) fn put_record(&self, left: u32, due: Due, out: &mut Output) -> Result<usize, Refused>
        requires { out.old.pos ≤ 2 * self.now.at }
        ensures put { put_of result out.new ≡ record_put out.old self.now left (due_number due) }
        ensures same { Same out.old out.new }
    {
        if left == 0 {
            return Err(Reason::Steps.at(self.at));
        }
        let Some(kind) = self.opened_kind(due) else {
            return Err(Reason::Steps.at(self.at));
        };
        let steps = self.steps;
        let start = out.pos;
        out.pos += LENGTH;
        let payload = Step {
            steps,
            at: self.at + OPEN_BYTES,
        };
        out.copy(&steps[self.at + 1..payload.at]);
        let first = payload.put_payload(due, kind, out)?;
        let children = Step { steps, at: first };
        let end = children.put_children(left - 1, due.row_under(kind), out)?;
        out.set32(start, out.pos - start - LENGTH);
        Ok(end)
    }
}
