// Records: refusals 4, 5 and 6, in reading order.
ghost use Rattle.std.specs.Prelude.{◌≡◌, cond, ◌+◌, ◌≤◌, length, None};
ghost use Rattle.refusals.specs.Reasons.{answer_of};
ghost use Rattle.text.specs.Newlines.{is_range};
ghost use Rattle.image.specs.Bytes.{be32};
ghost use Rattle.image.specs.Kinds.{TEXT};
ghost use Rattle.image.specs.Places.{due_number, place_number, row_number};
ghost use Rattle.image.specs.Read.{width_bytes, shape, skips, kind_at};
ghost use Rattle.image.specs.Open.{head_read, head_due, stop_due, record_due, child_due, children_due};
ghost use Rattle.image.specs.KindNumbers.{kind_of};

use crate::bytes::num32;
use crate::grammar::{Due, Place, after_row, first_child, is_over, is_text, payload_fits};
use crate::kinds::Kind;
use crate::reader::Reader;
use crate::sizes::{HEAD, LENGTH};
use crate::width::width_bytes;
use refusals::{Reason, Refused};

// A record whose children are to be read: where they start, where they stop, and their places.
#[derive(Clone, Copy)]
pub struct Opened {
    pub first: usize,
    pub stop: usize,
    pub row: &'static [Place],
}

impl Reader<'_> {
    // The kind of the record here, if it is not too short, ends in time, and has a kind and a payload right where this is due.
    #[tactic(auto, unfolding(crate::specs::Read::shape))]
    fn shaped_kind(&self, due: Due) -> Option<Kind>
        ensures { result
            ≡ cond (shape self.now.image.now (width_bytes self.now.image.now) (due_number due) self.now.at self.now.end)
            (kind_of (kind_at self.now.image.now self.now.at)) None }
    {
        if self.end - self.at < LENGTH {
            return None;
        }
        let n = num32(self.image, self.at);
        if n < 9 || self.end < self.at + LENGTH + n {
            return None;
        }
        let byte = self.image[self.at + LENGTH];
        if !due.fits(byte) {
            return None;
        }
        let kind = Kind::of(byte)?;
        payload_fits(self.image, due, kind, self.at + HEAD, self.at + LENGTH + n).then_some(kind)
    }

    // Whether length 0 stands alone here, at a place that may be empty.
    #[tactic(auto, unfolding(crate::specs::Read::skips))]
    fn skip_fits(&self, place: Place) -> bool
        ensures { result ≡ skips self.now.image.now (place_number place) self.now.at self.now.end }
    {
        place.is_optional() && LENGTH <= self.end - self.at && num32(self.image, self.at) == 0
    }

    // Whether the record here is a text, not too short, that ends in time.
    #[tactic(auto, unfolding(crate::specs::Read::shape, crate::specs::Grammar::kind_fits_of, crate::specs::Grammar::payload_fits))]
    fn text_fits(&self) -> bool
        ensures { result ≡ shape self.now.image.now (width_bytes self.now.image.now) TEXT self.now.at self.now.end }
    {
        if self.end - self.at < LENGTH {
            return false;
        }
        let n = num32(self.image, self.at);
        let width = width_bytes(self.image);
        if n < 9 + width || self.end < self.at + LENGTH + n {
            return false;
        }
        self.image[self.at + LENGTH] == Kind::Text as u8
            && is_text(self.image, self.at + HEAD + width, self.at + LENGTH + n)
    }

    // Whether the span of the record here is one of the source.
    fn span_fits(&self) -> bool
        requires { self.now.at + 13 ≤ length self.now.image.now }
        ensures { result ≡ is_range self.now.source.now (be32 self.now.image.now (self.now.at + 5)) (be32 self.now.image.now (self.now.at + 9)) }
    {
        text::newlines::is_range(
            self.source,
            num32(self.image, self.at + 5),
            num32(self.image, self.at + 9),
        )
    }

    // Goes on at another place of the same part.
    fn go_to(&mut self, at: usize)
        requires { at ≤ self.old.end }
        ensures same { (self.new.source.now ≡ self.old.source.now) × (self.new.image.now ≡ self.old.image.now) }
        ensures rest { (self.new.left ≡ self.old.left) × (self.new.at ≡ at) × (self.new.end ≡ self.old.end) }
    {
        self.at = at;
    }

    // Where the record here stops, whose shape is right: its depth and its span may be wrong.
    #[inline(always)]
    fn stop(&self) -> Result<usize, Refused>
        requires { self.now.at + 13 ≤ length self.now.image.now }
        ensures { answer_of (λ n. n) result ≡ stop_due self.now }
    {
        if self.left == 0 {
            return Err(Reason::Depth.at(self.at));
        }
        if !self.span_fits() {
            return Err(Reason::Span.at(self.at));
        }
        Ok(self.at + LENGTH + num32(self.image, self.at))
    }

    // The record here, to its first child.
    fn opening(&self, due: Due) -> Result<Opened, Refused>
        ensures { answer_of head_read result ≡ head_due self.now (due_number due) }
    {
        let Some(kind) = self.shaped_kind(due) else {
            return Err(Reason::Record.at(self.at));
        };
        let stop = self.stop()?;
        Ok(Opened {
            first: first_child(kind, self.at + HEAD, stop),
            stop,
            row: due.row_under(kind),
        })
    }

    // Reads the record here, where only a text may stand. About half of all records are texts; they have no children, so that nothing is called
    // again.
    // kept: `text_fits` is a test of its own: with `opening(Due::Text)` in its place, inlined here, `check` of wild spans takes 6 parts in a hundred
    // longer, and no class may get slower.
    #[tactic(auto, using(crate::proofs::Shapes::shape_room))]
    fn read_text(&self) -> Result<usize, Refused>
        ensures { answer_of (λ n. n) result ≡ record_due self.now TEXT }
    {
        if !self.text_fits() {
            return Err(Reason::Record.at(self.at));
        }
        // Taken apart and made anew, as in `read_record`.
        let stop = self.stop()?;
        Ok(stop)
    }

    // Reads the child here: nothing or a record.
    #[cycle(reading)]
    #[tactic(auto, using(crate::proofs::Shapes::skips_within))]
    fn read_child(&self, place: Place) -> Result<usize, Refused>
        ensures { answer_of (λ n. n) result ≡ child_due self.now (place_number place) }
    {
        if self.skip_fits(place) {
            return Ok(self.at + LENGTH);
        }
        let due = place.due();
        if due == Due::Text {
            return self.read_text();
        }
        self.read_record(due)
    }

    // Reads the record here with all that is in it.
    #[cycle(reading)]
    pub(crate) fn read_record(&self, due: Due) -> Result<usize, Refused>
        ensures { answer_of (λ n. n) result ≡ record_due self.now (due_number due) }
    {
        let o = self.opening(due)?;
        // kept: field by field: Rattle refuses `..*self` in a literal of a struct with a ghost field.
        let inner = Reader {
            source: self.source,
            image: self.image,
            left: self.left - 1,
            at: o.first,
            end: o.stop,
        };
        // Taken apart by `?` and made anew: a Result that is handed on whole is copied in pieces, which took a tenth of the reading.
        let next = inner.read_children(o.row)?;
        Ok(next)
    }

    // Reads the children of a record, at these places.
    #[cycle(reading)]
    fn read_children(&self, places: &'static [Place]) -> Result<usize, Refused>
        ensures { answer_of (λ n. n) result ≡ children_due self.now (row_number places.now) }
    {
        let mut here = *self;
        let mut row = places;
        // kept: as a loop: a child's end is what reading it answers, so that the `next` of an iterator would be this whole body.
        while here.at < here.end {
            let Some(place) = row.first() else {
                return Err(Reason::Record.at(here.at));
            };
            let next = here.read_child(*place)?;
            here.go_to(next);
            row = after_row(row);
        }
        if is_over(row) {
            return Ok(here.end);
        }
        Err(Reason::Record.at(here.at))
    }
}
