// The steps of a list, as they stand in its bytes.
ghost use Rattle.std.specs.Prelude.{◌≡◌, cond, ◌+◌, ◌≤◌, length, get_or, None};
ghost use Rattle.image.specs.KindNumbers.{kind_of};
ghost use Rattle.image.specs.Places.{due_number};
ghost use Rattle.writer.specs.Codes.{code_of};
ghost use Rattle.writer.specs.Steps.{stands, taken};
ghost use Rattle.image.specs.Write.{Bytes};
ghost use Rattle.steps.specs.Writer.{opened_from};

use image::bytes::num32;
use image::grammar::Due;
use image::kinds::Kind;

// What the first byte of a step says that it is.
#[derive(Clone, Copy)]
pub enum Code {
    Comment = 1,
    Open = 2,
    Text = 3,
    Payload = 4,
    Absent = 5,
    Close = 6,
}

// A place in a list of steps. (The type of a field doesn't tell proofs that its items are bytes.)
#[derive(Clone, Copy)]
pub(crate) struct Step<'a> {
    pub(crate) steps: &'a [u8],
    pub(crate) at: usize,
    ghost inside: { at ≤ length steps.now },
    ghost bytes: { Bytes steps.now },
}

// How many bytes a comment's step has, and one that opens a record.
pub(crate) const COMMENT_BYTES: usize = 9;

pub(crate) const OPEN_BYTES: usize = 10;

// How many bytes a text's step has before the text.
pub(crate) const TEXT_BYTES: usize = 7;

impl Step<'_> {
    // Whether n bytes are left here, and the first of them is this code.
    #[tactic(auto, unfolding(crate::specs::Steps::stands))]
    pub(crate) fn stands(&self, code: Code, n: usize) -> bool
        requires { 1 ≤ n }
        ensures { result ≡ stands self.now.steps.now self.now.at (code_of code) n }
    {
        n <= self.steps.len() - self.at && self.steps[self.at] == code as u8
    }

    // Goes on at another place of the list.
    pub(crate) fn go_to(&mut self, at: usize)
        requires { at ≤ length self.old.steps.now }
        ensures { (self.new.steps.now ≡ self.old.steps.now) × (self.new.at ≡ at) }
    {
        self.at = at;
    }

    // The kind of the record that the step here opens, if it opens one that is right where this is due.
    #[tactic(auto, using(crate::proofs::Seen::room_for))]
    pub(crate) fn opened_kind(&self, due: Due) -> Option<Kind>
        ensures { result
            ≡ cond (taken (opened_from self.now.steps.now (due_number due) self.now.at))
            (kind_of (get_or self.now.steps.now (self.now.at + 1) 0)) None }
    {
        if !self.stands(Code::Open, OPEN_BYTES) {
            return None;
        }
        let byte = self.steps[self.at + 1];
        if !due.fits(byte) || num32(self.steps, self.at + 6) < num32(self.steps, self.at + 2) {
            return None;
        }
        Kind::of(byte)
    }
}
