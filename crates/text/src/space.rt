// White_Space, trimming at the end, and the search of `pop_trailing_comment`.
ghost use Rattle.std.specs.Prelude.{◌≡◌, ◌≤◌, ◌<◌};
ghost use Rattle.text.specs.Space.{is_white, trim_end, is_passed, something};

use crate::utf8::{char_at, last_char};

// Whether a code point has the property White_Space. What most characters are is asked first: a space, other ASCII.
#[tactic(auto, using(std::proofs::lemmas::Bool::Decides::nat_tests), unfolding(crate::specs::Space::one_of, crate::specs::Utf8::within))]
pub fn is_whitespace(c: u32) -> bool
    ensures { result ≡ is_white c }
{
    match c {
        0x20 | 0x09..=0x0D => true,
        0x00..=0x7F => false,
        0x80..=0x1FFF => matches!(c, 0x85 | 0xA0 | 0x1680),
        0x2000..=0x200A => true,
        _ => matches!(c, 0x2028 | 0x2029 | 0x202F | 0x205F | 0x3000),
    }
}

// The end of the range from `from` to `to` without the white space at its end.
// kept: a text and two numbers: the promise covers reversed ranges and ranges past the text, which no slice is; from `get` on it is a slice.
#[tactic(auto, using(crate::proofs::Walks::left_smaller, crate::proofs::Characters::before_inside))]
pub fn trim_end(s: &[u8], from: usize, to: usize) -> usize
    ensures { result ≡ trim_end s.now from to }
{
    let Some(mut text) = s.get(from..to) else {
        return to;
    };
    // kept: as a loop: the last character tells how much of the text is left. An iterator from the end would have this loop as its one user.
    while let Some(last) = last_char(text) {
        if !is_whitespace(last.code) {
            break;
        }
        text = &text[..text.len() - last.bytes];
    }
    from + text.len()
}

// Whether the search passes over a character: white space other than the newline. Most characters are none, so that is asked first.
fn is_passed(c: u32) -> bool
    ensures { result ≡ is_passed c }
{
    is_whitespace(c) && c != 0x0A
}

// The first place from `at` on that is not white space or is a newline.
#[tactic(auto, using(crate::proofs::Walks::seek_next, crate::proofs::Walks::seek_found, crate::proofs::Characters::at_inside))]
pub fn find_something(s: &[u8], at: usize) -> Option<usize>
    ensures { result ≡ something s.now at }
{
    let mut here = at;
    // kept: as a loop: a character tells where the next starts. An iterator of characters with their places would have this loop as its one user.
    while let Some(c) = char_at(s, here) {
        if !is_passed(c.code) {
            return Some(here);
        }
        here += c.bytes;
    }
    None
}
