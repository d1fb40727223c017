// The first difference from stored answers.
ghost use Rattle.std.specs.Prelude.{◌≡◌};
ghost use Rattle.refusals.specs.Reasons.{number_of};
ghost use Rattle.stored_answers.specs.Numbers.{long as long_number};
ghost use Rattle.stored_answers.specs.Differences.{or_same, told_found, bytes_found};
ghost use Rattle.stored_answers.specs.Reading.{moved};

use crate::compare::is_next;
use crate::numbers::Reader;
use refusals::Refused;
use std::error::Error;
use std::fmt;

/// What differs.
#[derive(Clone, Copy, Debug, PartialEq, Eq)]
pub enum Difference {
    /// the refusal number
    Number,
    /// the place of a refusal
    Place,
    /// the state that a call answers
    State,
    /// the comments left, or the bytes written
    Count,
    /// how many rows, and what they hold
    Rows,
    /// how many marks, and what they hold
    Marks,
    /// the state of layout after the calls
    Layout,
    /// the state of rendering after the calls
    Rendering,
    Text,
    /// what the program writes
    Reply,
    /// a buffer of the replay is too small
    Room,
}

impl fmt::Display for Difference {
    fn fmt<W: fmt::Write>(&self, f: &mut fmt::Formatter<W>) -> fmt::Result {
        f.write_str(match self {
            Difference::Number => "refusal number",
            Difference::Place => "place",
            Difference::State => "state",
            Difference::Count => "count",
            Difference::Rows => "rows",
            Difference::Marks => "marks",
            Difference::Layout => "layout state",
            Difference::Rendering => "rendering state",
            Difference::Text => "text",
            Difference::Reply => "what the program writes",
            Difference::Room => "room of the replay",
        })
    }
}

impl Error for Difference {}

/// `what` where a test failed.
pub fn unless(same: bool, what: Difference) -> Result<(), Difference>
    ensures { result ≡ or_same same what }
{
    if same { Ok(()) } else { Err(what) }
}

/// What is stored of an answer: the refusal's number, or 0, and the place.
// kept: two numbers and no Option, as they are stored: of an accepted answer both are compared with 0.
#[derive(Clone, Copy)]
pub struct Told {
    pub number: usize,
    pub place: usize,
}

impl Told {
    /// Against what was answered.
    pub fn found(self, number: usize, place: usize) -> Result<(), Difference>
        ensures { result ≡ told_found self number place }
    {
        unless(self.number == number, Difference::Number).and(unless(
            self.place == place,
            Difference::Place,
        ))
    }

    /// Against a refusal.
    pub fn refused(self, refused: Refused) -> Result<(), Difference>
        ensures { result ≡ told_found self (number_of refused.reason) refused.place }
    {
        self.found(usize::from(refused.number()), refused.place)
    }
}

/// Some bytes against those that come next with their number before them.
pub fn bytes_found(b: &[u8], answers: &mut Reader, what: Difference) -> Result<(), Difference>
    ensures value { result ≡ bytes_found b.now answers.old.answers.now answers.old.place what }
    ensures goes { answers.new ≡ moved (moved answers.old 4) (long_number answers.old.answers.now answers.old.place) }
{
    let size = answers.long();
    let same = is_next(b, answers);
    answers.skip(size);
    unless(size == b.len(), what).and(unless(same, what))
}
