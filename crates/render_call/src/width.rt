// Refusal 15: the width that a caller chooses.
ghost use Rattle.std.specs.Prelude.{◌≡◌, not};
ghost use Rattle.refusals.specs.Refusals.{any};
ghost use Rattle.cut_rule.specs.Tests.{width_tests};

use rows::units::Columns;

// "40 to 200".
const MIN_WIDTH: usize = 40;

const MAX_WIDTH: usize = 200;

// Whether a width may be chosen where another is carried (0: none yet).
pub fn width_fits(width: Columns, carried: Columns) -> bool
    ensures { result ≡ not (any (width_tests width.0 carried.0)) }
{
    MIN_WIDTH <= width.0 && width.0 <= MAX_WIDTH && (carried.0 == 0 || carried.0 == width.0)
}
