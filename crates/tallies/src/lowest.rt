// Euclid's divisor, and a fraction in lowest terms.
ghost use Rattle.std.specs.Prelude.{◌≡◌};
ghost use Rattle.tallies.specs.Fraction.{common_divisor, reduced};

use crate::Fraction;

// The greatest number that divides both, by Euclid's steps.
// kept: each step's numbers are made of the last one's, so that no range has them.
#[tactic(auto, using(crate::proofs::Divisor::at_end, crate::proofs::Divisor::keeps))]
fn common_divisor(mut a: usize, mut b: usize) -> usize
    ensures { result ≡ common_divisor a b }
{
    while b != 0 {
        (a, b) = (b, a % b);
    }
    a
}

/// Wrapped over given in lowest terms; 0 over 1 when none is given.
#[tactic(auto, using(crate::proofs::Divisor::positive), unfolding(crate::specs::Fraction::reduced))]
pub fn reduced(wrapped: usize, given: usize) -> Fraction
    ensures { result ≡ reduced wrapped given }
{
    if given == 0 {
        return Fraction { over: 0, under: 1 };
    }
    let divisor = common_divisor(wrapped, given);
    Fraction {
        over: wrapped / divisor,
        under: given / divisor,
    }
}
