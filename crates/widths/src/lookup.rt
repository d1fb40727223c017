// The lookup in a range table.
ghost use Rattle.std.specs.Prelude.{◌≡◌, true, ltb};
ghost use Rattle.widths.specs.Widths.{ordered, table_width};

// A range of a table: its first and its last code point, and how many columns each takes.
#[derive(Clone, Copy, Debug, PartialEq, Eq)]
pub struct Entry(pub u32, pub u32, pub u32);

// What an ordered table says of a code point.
pub fn width_in(table: &[Entry], code: u32) -> u32
    requires { ordered table.now ≡ true }
    ensures { result ≡ table_width table.now code }
{
    let ends_before = |entry: &Entry| -> bool
        ensures { result ≡ ltb entry.now.1 code }
    { entry.1 < code };
    let next = table.partition_point(ends_before);
    match table.get(next) {
        Some(Entry(first, _, columns)) if *first <= code => *columns,
        _ => 1,
    }
}
