// Request 2, the numbers: figures of files, their sums, refusal 14, and wrapped over given as a reduced fraction.
#![tactic(auto)]

ghost use Rattle.std.specs.Prelude.{◌≡◌, [], ◌∷◌};

pub mod lowest;
pub mod sums;

/// What one file gives: "text bytes, newlines, greatest value `column` takes, group numbers given, groups wrapped (marks at 1), comments
/// placed, comments left".
#[derive(Clone, Copy, Debug, Default, PartialEq, Eq)]
pub struct Figures {
    pub bytes: usize,
    pub newlines: usize,
    pub column: usize,
    pub given: usize,
    pub wrapped: usize,
    pub placed: usize,
    pub left: usize,
}

impl Figures {
    /// The seven, in this order.
    pub fn in_order(self) -> [usize; 7]
        ensures { result ≡ self.bytes ∷ self.newlines ∷ self.column ∷ self.given ∷ self.wrapped ∷ self.placed ∷ self.left ∷ [] }
    {
        [
            self.bytes,
            self.newlines,
            self.column,
            self.given,
            self.wrapped,
            self.placed,
            self.left,
        ]
    }
}

/// What the files counted so far give: how many there are, and their figures together.
#[derive(Clone, Copy, Debug, Default, PartialEq, Eq)]
pub struct Tallies {
    pub files: usize,
    pub all: Figures,
}

/// Wrapped over given.
#[derive(Clone, Copy, Debug, PartialEq, Eq)]
pub struct Fraction {
    pub over: usize,
    pub under: usize,
}
