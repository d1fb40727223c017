// Sums of figures, and refusal 14.
ghost use Rattle.std.specs.Prelude.{◌≡◌, not, false, ltb};
ghost use Rattle.std.specs.List.{list_any};
ghost use Rattle.refusals.specs.Refusals.{any};
ghost use Rattle.tallies.specs.Tallies.{Within, together, added, bound_tests, tally_tests};

use crate::{Figures, Tallies};
use std::ops::Add;

// "up to 4,096 files", and "one over 4,294,967,296".
const MAX_FILES: usize = 4096;

const MAX_TALLY: usize = 4294967296;

// Whether one of the numbers is over the bound.
fn one_is_over(numbers: &[usize]) -> bool
    ensures { result ≡ list_any (ltb MAX_TALLY) numbers.now }
{
    numbers.iter().any(|&n| MAX_TALLY < n)
}

// Whether each of the seven is within the bound.
fn bounds_fit(f: Figures) -> bool
    ensures { result ≡ not (any (bound_tests f)) }
{
    !one_is_over(&f.in_order())
}

/// Whether 14 lets the tallies pass: a file more may be counted, each sum is within the bound, no more groups are wrapped than given.
pub fn tallies_fit(t: Tallies) -> bool
    ensures { result ≡ not (any (tally_tests t)) }
{
    t.files < MAX_FILES && bounds_fit(t.all) && t.all.wrapped <= t.all.given
}

// "sums, for `column` the greatest".
impl Add for Figures {
    type Output = Figures;

    ghost can_add = { λ f g. Within f × Within g };

    ghost add_gives = { λ f g r. r ≡ together f g };

    fn add(self, g: Figures) -> Figures {
        Figures {
            bytes: self.bytes + g.bytes,
            newlines: self.newlines + g.newlines,
            column: self.column.max(g.column),
            given: self.given + g.given,
            wrapped: self.wrapped + g.wrapped,
            placed: self.placed + g.placed,
            left: self.left + g.left,
        }
    }
}

/// The tallies with a file more, which 14 let pass.
pub fn add(t: Tallies, f: Figures) -> Tallies
    requires { (any (tally_tests t) ≡ false) × Within f }
    ensures { result ≡ added f t }
{
    Tallies {
        files: t.files + 1,
        all: t.all + f,
    }
}
