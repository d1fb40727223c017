// Places in the answers, and big-endian numbers there.
ghost use Rattle.std.specs.Prelude.{◌≡◌, ◌≤◌, ◌<◌, ◌↔◌, IsTrue, length, get_or, max, slice_range};
ghost use Rattle.stored_answers.specs.Numbers.{onward, forward_from, short as short_number, long as long_number, eight as eight_number};
ghost use Rattle.stored_answers.specs.Reading.{moved, start_of, end_of, IsBlock};

/// The place n bytes on, or the last number there is.
#[tactic(auto, unfolding(crate::specs::Numbers::onward))]
pub fn past(at: usize, n: usize) -> usize
    ensures { result ≡ onward at n }
{
    at.saturating_add(n)
}

/// Where to go on from `at`: at `next`, or past the answers if that is no step forward.
pub fn forward(at: usize, next: usize) -> usize
    requires { at < 18446744073709551615 }
    ensures { (result ≡ forward_from at next) × (at < result) }
{
    if at < next { next } else { usize::MAX }
}

/// Answers that are read from a place on, which moves on with each read.
#[derive(Clone, Copy)]
pub struct Reader<'a> {
    pub answers: &'a [u8],
    pub place: usize,
}

impl<'a> Reader<'a> {
    /// Goes past n bytes.
    pub fn skip(&mut self, n: usize)
        ensures { self.new ≡ moved self.old n }
    {
        self.place = past(self.place, n);
    }

    pub fn byte(&mut self) -> usize
        ensures value { result ≡ get_or self.old.answers.now self.old.place 0 }
        ensures bound { result < 256 }
        ensures goes { self.new ≡ moved self.old 1 }
    {
        let value = self.answers.get(self.place).copied().unwrap_or(0);
        self.skip(1);
        usize::from(value)
    }

    // kept: three lengths, each as two halves of the one before. One function over a const number of bytes would be a loop, whose sum has
    // a power of 256 as its bound.
    /// Two bytes.
    #[tactic(auto, using(crate::proofs::Places::onward_twice), unfolding(crate::specs::Numbers::short))]
    pub fn short(&mut self) -> usize
        ensures value { result ≡ short_number self.old.answers.now self.old.place }
        ensures bound { result < 65536 }
        ensures goes { self.new ≡ moved self.old 2 }
    {
        let high = self.byte();
        high * 256 + self.byte()
    }

    /// Four bytes.
    #[tactic(auto, using(crate::proofs::Places::onward_twice), unfolding(crate::specs::Numbers::long))]
    pub fn long(&mut self) -> usize
        ensures value { result ≡ long_number self.old.answers.now self.old.place }
        ensures bound { result < 4294967296 }
        ensures goes { self.new ≡ moved self.old 4 }
    {
        let high = self.short();
        high * 65536 + self.short()
    }

    /// Eight bytes.
    #[tactic(auto, using(crate::proofs::Places::onward_twice), unfolding(crate::specs::Numbers::eight))]
    pub fn eight(&mut self) -> usize
        ensures value { result ≡ eight_number self.old.answers.now self.old.place }
        ensures goes { self.new ≡ moved self.old 8 }
    {
        let high = self.long();
        high * 4294967296 + self.long()
    }

    /// The next n bytes, as far as the answers go.
    pub fn bytes(&mut self, n: usize) -> &'a [u8]
        ensures value { result.now ≡ slice_range self.old.answers.now (start_of self.old) (end_of self.old n) }
        ensures goes { self.new ≡ record self.old { place = max self.old.place (end_of self.old n) } }
    {
        let from = self.place.min(self.answers.len());
        let to = from + n.min(self.answers.len() - from);
        self.place = self.place.max(to);
        &self.answers[from..to]
    }

    /// The bytes that a length of four bytes leads.
    pub fn block(&mut self) -> &'a [u8]
        ensures value { IsBlock self.old result.now }
    {
        let size = self.long();
        self.bytes(size)
    }

    /// Whether the answers ended before what was read.
    pub fn is_cut(&self) -> bool
        ensures { IsTrue result ↔ (length self.now.answers.now < self.now.place) }
    {
        self.answers.len() < self.place
    }
}
