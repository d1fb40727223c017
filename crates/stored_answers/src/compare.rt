// Buffers filled from stored answers, and compared with them.
ghost use Rattle.std.specs.Prelude.{◌≡◌, ℕ, List, length, get_or};
ghost use Rattle.stored_answers.specs.Numbers.{listed, agree, long};
ghost use Rattle.stored_answers.specs.Reading.{moved};

use crate::numbers::Reader;

/// What answers store one after the other.
pub trait Stored: Copy {
    /// The one that starts at a place of the answers, and how many bytes it has.
    ghost stored: { List ℕ → ℕ → Self };

    ghost width: { ℕ };

    fn read(answers: &mut Reader) -> Self
        ensures value { result ≡ stored answers.old.answers.now answers.old.place }
        ensures goes { answers.new ≡ moved answers.old width };
}

impl Stored for u8 {
    ghost stored = { λ d at. get_or d at 0 };

    ghost width = { 1 };

    fn read(answers: &mut Reader) -> u8 {
        answers.byte() as u8
    }
}

impl Stored for u32 {
    ghost stored = { λ d at. long d at };

    ghost width = { 4 };

    fn read(answers: &mut Reader) -> u32 {
        answers.long() as u32
    }
}

/// Fills a buffer with what comes next.
// kept: by the index, as the promise is about places: a loop over what `iter_mut` lends would have its rest in the invariant, and the places that
// are filled would have to be read from it.
#[tactic(auto, using(crate::proofs::Listing::filling_start, crate::proofs::Listing::filling_end))]
pub fn fill<T: Stored>(b: &mut [T], answers: &mut Reader)
    ensures { b.new ≡ listed (T.stored answers.old.answers.now) T.width (length b.old) answers.old.place }
{
    for i in 0..b.len() {
        b[i] = T::read(answers);
    }
}

/// Whether what comes next is what a buffer holds.
#[tactic(auto, using(crate::proofs::Listing::agreeing_more, crate::proofs::Listing::agreeing_not, crate::proofs::Listing::agreeing_end))]
pub fn is_next<T: Stored + PartialEq>(b: &[T], answers: &Reader) -> bool
    ensures { result ≡ agree T.eq (T.stored answers.now.answers.now) T.width b.now answers.now.place }
{
    let mut rest = *answers;
    for x in b {
        if *x != T::read(&mut rest) {
            return false;
        }
    }
    true
}
