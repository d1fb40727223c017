// How many formulas a size has.
ghost use Rattle.std.specs.Prelude.{◌≡◌, ◌-◌, ◌≤◌, length};
ghost use Rattle.formulas.specs.Formulas.{plus, times, splits, formulas};

// The largest size.
pub(crate) const LARGEST: usize = 7;

// Those of a size.
pub(crate) fn count(size: usize) -> usize
    requires { (1 ≤ size) × (size ≤ 7) }
    ensures { result ≡ length (formulas size) }
{
    match size {
        1 => 1,
        2 => 2,
        3 => 6,
        4 => 20,
        5 => 72,
        6 => 272,
        _ => 1064,
    }
}

// Those of a size that are of one operator.
pub(crate) fn binaries(size: usize) -> usize
    requires { (2 ≤ size) × (size ≤ 7) }
    ensures { (result ≡ length (splits plus formulas 1 (size - 2))) × (result ≡ length (splits times formulas 1 (size - 2))) }
{
    match size {
        2 => 0,
        3 => 1,
        4 => 4,
        5 => 16,
        6 => 64,
        _ => 260,
    }
}
