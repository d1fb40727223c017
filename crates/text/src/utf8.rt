// Well-formed UTF-8: sequences, the check of a text, boundaries, characters.
ghost use Rattle.std.specs.Prelude.{◌≡◌, ◌+◌, ◌≤◌, ◌<◌, length, get_or};
ghost use Rattle.refusals.specs.Reasons.{refusal_in};
ghost use Rattle.text.specs.Utf8.{row_of, within, continues, sequence, highs, plain, stride, some_bytes, ill_formed};
ghost use Rattle.text.specs.Utf8.{well_formed, reaches_over, cuts, boundary, scalar, char_at, ends, ending, char_before};

use refusals::{Reason, Refused};

// A character: its code point, and how many bytes it has in the text.
#[derive(Clone, Copy, Debug, PartialEq, Eq)]
pub struct Char {
    pub code: u32,
    pub bytes: usize,
}

// The byte at a place, 0 past the end.
pub(crate) fn byte(s: &[u8], at: usize) -> u8
    ensures { result ≡ get_or s.now at 0 }
{
    s.get(at).copied().unwrap_or(0)
}

#[tactic(auto, using(std::proofs::lemmas::Bool::Decides::nat_tests), unfolding(crate::specs::Utf8::within))]
fn is_continuation(b: u8) -> bool
    ensures { result ≡ continues b }
{
    matches!(b, 0x80..=0xBF)
}

// Whether b comes second in some sequence of two bytes or more that starts with `first`, by table 3-7 of the Unicode Standard.
#[inline(always)]
#[tactic(auto, using(std::proofs::lemmas::Bool::Decides::nat_tests), unfolding(crate::specs::Utf8::row_in, crate::specs::Utf8::within))]
fn is_second(first: u8, b: u8) -> bool
    requires { 1 < (row_of first).bytes }
    ensures { result ≡ within (row_of first).second_low (row_of first).second_high b }
{
    match first {
        0xE0 => matches!(b, 0xA0..=0xBF),
        0xED => matches!(b, 0x80..=0x9F),
        0xF0 => matches!(b, 0x90..=0xBF),
        0xF4 => matches!(b, 0x80..=0x8F),
        _ => is_continuation(b),
    }
}

// How many bytes the sequence that starts at `at` has, if one does. It is made part of its callers: called, it makes a search half as long again
// where it passes ASCII, and the check by two thirds where a wide character stands here and there.
#[inline(always)]
#[tactic(auto, using(crate::proofs::Sequences::row_two, crate::proofs::Sequences::row_three, crate::proofs::Sequences::row_four))]
fn sequence(s: &[u8], at: usize) -> Option<usize>
    ensures { result ≡ some_bytes (sequence s.now at) }
{
    let first = *s.get(at)?;
    match first {
        0x00..=0x7F => Some(1),
        0xC2..=0xDF => is_second(first, byte(s, at + 1)).then_some(2),
        0xE0..=0xEF => (is_second(first, byte(s, at + 1))
            && is_continuation(byte(s, at + 2))).then_some(3),
        0xF0..=0xF4 => (is_second(first, byte(s, at + 1))
            && is_continuation(byte(s, at + 2))
            && is_continuation(byte(s, at + 3))).then_some(4),
        _ => None,
    }
}

// How many of the sixteen bytes from `at` on are 0x80 or above.
// kept: by the index, a sum of bytes. By `filter(..).count()`, which counts in 64 bits, layout of small saves takes 4 parts in a hundred longer,
// of a large tariff 2, and no class may get slower.
#[tactic(auto, using(crate::proofs::Runs::highs_more), unfolding(crate::specs::Utf8::highs))]
fn count_high(s: &[u8], at: usize) -> u8
    requires { at + 16 ≤ length s.now }
    ensures { result ≡ highs 16 s.now at }
{
    let mut n = 0;
    for k in 0..16 {
        n += s[at + k] / 0x80;
    }
    n
}

// Whether there are sixteen bytes from `at` on, all of them below 0x80.
fn is_plain(s: &[u8], at: usize) -> bool
    requires { at ≤ length s.now }
    ensures { result ≡ plain 16 s.now at }
{
    16 <= s.len() - at && count_high(s, at) == 0
}

// How far the check goes on from `at`: sixteen bytes, or the bytes of a sequence if one starts there. Sixteen together are looked at only at
// each sixteenth byte, so that a text where few are together takes little longer.
#[tactic(auto, using(crate::proofs::Runs::stride_odd, crate::proofs::Runs::stride_plain, crate::proofs::Runs::stride_one))]
fn stride(s: &[u8], at: usize) -> Option<usize>
    requires { at < length s.now }
    ensures { result ≡ some_bytes (stride s.now at) }
{
    if at % 16 == 0 && is_plain(s, at) {
        return Some(16);
    }
    sequence(s, at)
}

// Whether a text is well-formed; if not, the refusal names where its first bad sequence starts.
#[tactic(auto, using(crate::proofs::Characters::bytes_of, crate::proofs::Runs::stride_fits, crate::proofs::Runs::start))]
pub fn check(s: &[u8]) -> Result<(), Refused>
    ensures { refusal_in result ≡ ill_formed s.now }
{
    let mut at = 0;
    // kept: it goes by sixteen bytes or by one sequence, so that no range has the places.
    while at < s.len() {
        let Some(bytes) = stride(s, at) else {
            return Err(Reason::SourceNotUtf8.at(at));
        };
        at += bytes;
    }
    Ok(())
}

// Whether a text is well-formed.
#[tactic(auto, using(crate::proofs::Checked::checked))]
pub fn is_well_formed(s: &[u8]) -> bool
    ensures { result ≡ well_formed s.now }
{
    check(s).is_ok()
}

// Whether a character starts k bytes before `at` and ends behind it.
fn is_over(s: &[u8], at: usize, k: usize) -> bool
    ensures { result ≡ reaches_over s.now at k }
{
    k <= at && matches!(sequence(s, at - k), Some(bytes) if k < bytes)
}

// Whether a text that starts or ends at `at` cuts a character.
#[tactic(auto, unfolding(crate::specs::Utf8::cuts))]
pub fn is_cut(s: &[u8], at: usize) -> bool
    ensures { result ≡ cuts s.now at }
{
    is_over(s, at, 1) || is_over(s, at, 2) || is_over(s, at, 3)
}

// A character boundary: the end of the text, or a byte that starts a sequence.
#[tactic(auto, using(std::proofs::lemmas::Bool::Decides::nat_tests), unfolding(crate::specs::Utf8::boundary))]
pub(crate) fn is_boundary(s: &[u8], at: usize) -> bool
    ensures { result ≡ boundary s.now at }
{
    at <= s.len() && !is_continuation(byte(s, at))
}

// The code point of a sequence of n bytes at `at`.
#[tactic(auto, using(std::proofs::lemmas::Bool::Decides::nat_tests), unfolding(crate::specs::Utf8::scalar))]
fn code_point(s: &[u8], at: usize, n: usize) -> u32
    requires { at + n ≤ length s.now }
    ensures { result ≡ scalar s.now at n }
{
    let first = u32::from(byte(s, at));
    if n <= 1 {
        return first;
    }
    let second = u32::from(byte(s, at + 1)) % 64;
    if n == 2 {
        return first % 32 * 64 + second;
    }
    let third = u32::from(byte(s, at + 2)) % 64;
    if n == 3 {
        return first % 16 * 4096 + second * 64 + third;
    }
    let fourth = u32::from(byte(s, at + 3)) % 64;
    first % 8 * 262144 + second * 4096 + third * 64 + fourth
}

// The character that starts at `at`.
#[inline(always)]
#[tactic(auto, using(crate::proofs::Characters::sequence_inside), unfolding(crate::specs::Utf8::char_at, crate::specs::Utf8::decoded))]
pub fn char_at(s: &[u8], at: usize) -> Option<Char>
    ensures { result ≡ char_at s.now at }
{
    let bytes = sequence(s, at)?;
    Some(Char {
        code: code_point(s, at, bytes),
        bytes,
    })
}

// Whether a text ends in a sequence of k bytes.
#[tactic(auto, using(std::proofs::lemmas::Bool::Decides::nat_tests), unfolding(crate::specs::Utf8::ends))]
fn is_ending(text: &[u8], k: usize) -> bool
    requires { 0 < k }
    ensures { result ≡ ends text.now 0 (length text.now) k }
{
    k <= text.len() && sequence(text, text.len() - k) == Some(k)
}

// How many bytes the sequence at the end of a text has, if one is there.
#[tactic(auto, using(crate::proofs::Characters::ending_at, crate::proofs::Characters::ending_none))]
fn ending(text: &[u8]) -> Option<usize>
    ensures { result ≡ some_bytes (ending text.now 0 (length text.now)) }
{
    // kept: tried as `(1..5).find(..)`, and the proof didn't close: the loop's invariant says which lengths fail.
    for k in 1..5 {
        if is_ending(text, k) {
            return Some(k);
        }
    }
    None
}

// The last character of a text.
#[tactic(auto, using(crate::proofs::Characters::bytes_of, crate::proofs::Characters::ending_fits))]
pub fn last_char(text: &[u8]) -> Option<Char>
    ensures { result ≡ char_before text.now 0 (length text.now) }
{
    let bytes = ending(text)?;
    Some(Char {
        code: code_point(text, text.len() - bytes, bytes),
        bytes,
    })
}

/// The last character of the range from `from` to `to`; none where that is no range of the text.
pub fn char_before(s: &[u8], from: usize, to: usize) -> Option<Char>
    ensures { result ≡ char_before s.now from to }
{
    last_char(s.get(from..to)?)
}
