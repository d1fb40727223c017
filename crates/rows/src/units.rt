// Columns and bytes, which are never taken for one another.
ghost use Rattle.std.specs.Prelude.{◌≡◌, ◌+◌, ◌<◌, ◌^◌};

use std::ops::Add;

// A width in columns.
#[derive(Clone, Copy, Debug, Default, PartialEq, Eq)]
pub struct Columns(pub usize);

impl Add for Columns {
    type Output = Columns;

    ghost can_add = { λ a b. a.0 + b.0 < 2 ^ 64 };

    ghost add_gives = { λ a b c. c.0 ≡ a.0 + b.0 };

    fn add(self, rhs: Columns) -> Columns {
        Columns(self.0 + rhs.0)
    }
}

// A length in bytes.
#[derive(Clone, Copy, Debug, Default, PartialEq, Eq)]
pub struct Bytes(pub usize);

impl Add for Bytes {
    type Output = Bytes;

    ghost can_add = { λ a b. a.0 + b.0 < 2 ^ 64 };

    ghost add_gives = { λ a b c. c.0 ≡ a.0 + b.0 };

    fn add(self, rhs: Bytes) -> Bytes {
        Bytes(self.0 + rhs.0)
    }
}

// What an `Ascii` text measures: its bytes.
pub fn ascii_columns(size: Bytes) -> Columns
    ensures { result.0 ≡ size.0 }
{
    Columns(size.0)
}
