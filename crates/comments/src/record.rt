// The numbers of a record in the image, and where its children start.
use crate::parsed::Parsed;
use crate::records::Records;
use image::bytes::num32;
use image::sizes::{HEAD, LENGTH};

impl Parsed<'_> {
    ghost use Rattle.std.specs.Prelude.{◌≡◌, ◌+◌, ◌≤◌, length, get_or, eqb};
    ghost use Rattle.image.specs.Bytes.{be32};
    ghost use Rattle.image.specs.Read.{stop_at, kind_at};
    ghost use Rattle.comments.specs.Record.{InImage, Whole};

    // Where the record at `at` ends.
    pub fn past(&self, at: usize) -> usize
        requires { InImage self.now.image.now at }
        ensures { result ≡ stop_at self.now.image.now at }
    {
        at + LENGTH + num32(self.image, at)
    }

    // Where the second child of the record at `at` starts.
    pub fn second(&self, at: usize) -> usize
        requires { InImage self.now.image.now (at + 13) }
        ensures { result ≡ stop_at self.now.image.now (at + 13) }
    {
        self.past(at + HEAD)
    }

    // Where the third child of the record at `at` starts.
    pub fn third(&self, at: usize) -> usize
        requires second_in_image { InImage self.now.image.now (at + 13) }
        requires third_in_image { InImage self.now.image.now (stop_at self.now.image.now (at + 13)) }
        ensures { result ≡ stop_at self.now.image.now (stop_at self.now.image.now (at + 13)) }
    {
        self.past(self.second(at))
    }

    // Whether an optional child is absent.
    // kept: a test, as what is present stands at the same `at`: `let Some(at) = parsed.optional(at) else { return };` binds the number again.
    pub fn is_absent(&self, at: usize) -> bool
        requires { InImage self.now.image.now at }
        ensures { result ≡ eqb (be32 self.now.image.now at) 0 }
    {
        num32(self.image, at) == 0
    }

    // The number of the record's kind.
    // kept: here and below: a fact about `at`, another number at each call: no value has it for good.
    pub fn kind(&self, at: usize) -> usize
        requires { Whole self.now.image.now at }
        ensures { result ≡ kind_at self.now.image.now at }
    {
        usize::from(self.image[at + LENGTH])
    }

    // The start of the record's span.
    pub fn start(&self, at: usize) -> u32
        requires { Whole self.now.image.now at }
        ensures { result ≡ be32 self.now.image.now (at + 5) }
    {
        num32(self.image, at + 5) as u32
    }

    // The end of the record's span.
    pub fn end(&self, at: usize) -> u32
        requires { Whole self.now.image.now at }
        ensures { result ≡ be32 self.now.image.now (at + 9) }
    {
        num32(self.image, at + 9) as u32
    }

    // The payload byte.
    pub fn payload(&self, at: usize) -> usize
        requires { at + 14 ≤ length self.now.image.now }
        ensures { result ≡ get_or self.now.image.now (at + 13) 0 }
    {
        usize::from(self.image[at + HEAD])
    }
}

impl Parsed<'_> {
    ghost use Rattle.std.specs.Prelude.{◌≡◌};
    ghost use Rattle.comments.specs.AllIn.{AllIn, offsets_from};
    ghost use Rattle.comments.specs.Records.{offsets};

    // The records from `from` up to `to`.
    pub fn records(&self, from: usize, to: usize) -> Records<'_>
        requires { AllIn self.now.image.now from to }
        ensures { offsets result ≡ offsets_from self.now.image.now from to }
    {
        Records {
            parsed: self,
            at: from,
            to,
        }
    }
}

impl Iterator for Records<'_> {
    ghost use Rattle.std.specs.Iterator.{YieldsFirst, item_count};
    ghost use Rattle.comments.specs.Records.{offsets};

    type Item = usize;

    ghost next_gives = { YieldsFirst offsets };

    ghost remaining = { item_count offsets };

    fn next(&mut self) -> Option<usize> {
        if self.at < self.to {
            let at = self.at;
            self.at = self.parsed.past(at);
            return Some(at);
        }
        None
    }
}
