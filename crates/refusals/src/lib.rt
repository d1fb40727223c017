// What a refusal is: why a call is turned down, and where.
#![tactic(auto)]

ghost use Rattle.std.specs.Prelude.{◌≡◌};
ghost use Rattle.refusals.specs.Reasons.{number_of};

use std::error::Error;
use std::fmt;

/// Why a call is turned down: the causes of document 01's table and those of the requests, each with its number there.
#[derive(Clone, Copy, Debug, PartialEq, Eq)]
pub enum Reason {
    SourceTooLong = 1,
    SourceNotUtf8 = 2,
    Header = 3,
    Record = 4,
    Depth = 5,
    Span = 6,
    Comments = 7,
    RowsNeeded = 8,
    MarksNeeded = 9,
    BytesNeeded = 10,
    Rows = 11,
    State = 12,
    Frame = 13,
    Tallies = 14,
    Width = 15,
    Steps = 16,
    ImageNeeds = 17,
    Frames = 18,
    BatchNeeds = 19,
    Rule = 20,
    StoredWidth = 21,
    Allotment = 22,
    Listed = 23,
    Formula = 24,
}

impl Reason {
    pub fn number(self) -> u8
        ensures { result ≡ number_of self }
    {
        // kept: an enum's number is got by a cast alone; a table of the 24 would say them twice.
        self as u8
    }

    pub fn at(self, place: usize) -> Refused
        ensures { result ≡ record { reason = self; place = place } }
    {
        Refused {
            reason: self,
            place,
        }
    }
}

/// Why a call is turned down, and the place: of a byte, a record or a row, or what is needed.
#[derive(Clone, Copy, Debug, PartialEq, Eq)]
pub struct Refused {
    pub reason: Reason,
    pub place: usize,
}

impl Refused {
    pub fn number(self) -> u8
        ensures { result ≡ number_of self.reason }
    {
        Reason::number(self.reason)
    }
}

// kept: `lines::refused_line` writes the same: `write!` to its `ArrayString` promises bytes only if it is `Ok`, and nothing promises that.
impl fmt::Display for Refused {
    fn fmt<W: fmt::Write>(&self, f: &mut fmt::Formatter<W>) -> fmt::Result {
        write!(f, "refused {} at {}", self.number(), self.place)
    }
}

impl Error for Refused {}
