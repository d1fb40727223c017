// The newline count, with the place of the last newline.
ghost use Rattle.std.specs.Prelude.{◌≡◌, ◌-◌, ◌≤◌, length};
ghost use Rattle.text.specs.Newlines.{newline_places, counted, is_range, count_newlines};

use crate::utf8::is_boundary;

// How many newlines a range has, and the place of the last of them, or the range's end if it has none.
#[derive(Clone, Copy, Debug, PartialEq, Eq)]
pub struct Newlines {
    pub count: usize,
    pub place: usize,
}

// Whether a range is not reversed and has its ends on boundaries of the text.
// kept: the range is a caller's, and may be any two numbers: there is no slice of it before this is asked.
#[tactic(auto, using(std::proofs::lemmas::Bool::Decides::nat_tests), unfolding(crate::specs::Newlines::is_range))]
pub fn is_range(s: &[u8], from: usize, to: usize) -> bool
    ensures { result ≡ is_range s.now from to }
{
    from <= to && is_boundary(s, from) && is_boundary(s, to)
}

// The newlines of a range; none where it is outside the text, reversed or off a boundary.
// kept: as above, the range is a caller's, and may be no part of the text.
#[tactic(auto, using(crate::proofs::Counts::range_inside), unfolding(crate::specs::Newlines::count_newlines))]
pub fn count_newlines(s: &[u8], from: usize, to: usize) -> Newlines
    ensures { result ≡ count_newlines s.now from to }
{
    if is_range(s, from, to) {
        return newlines_between(s, from, to);
    }
    Newlines {
        count: 0,
        place: to,
    }
}

// kept: one pass finds both. By `filter(..).count()` and `rposition` there are two, and in a slice of the range the place would count from the
// range's start.
fn newlines_between(s: &[u8], from: usize, to: usize) -> Newlines
    requires { (from ≤ to) × (to ≤ length s.now) }
    ensures { result ≡ counted to (newline_places (to - from) s.now from) }
{
    let mut count = 0;
    let mut place = to;
    for at in from..to {
        if s[at] == b'\n' {
            count += 1;
            place = at;
        }
    }
    Newlines { count, place }
}
