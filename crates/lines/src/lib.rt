// Numbers in decimal, and the line `refused N at P`.
#![tactic(auto)]

ghost use Rattle.std.specs.Prelude.{◌≡◌, ◌+◌, ◌≤◌, ◌++◌, length};
ghost use Rattle.refusals.specs.Reasons.{refusal};
ghost use Rattle.lines.specs.Lines.{decimal, decimal_in, refused_line};

use arrayvec::ArrayString;
use refusals::Refused;

/// A number of 64 bits has 20 digits at most.
pub const DIGITS: usize = 20;

/// Room for the line of a refusal.
pub const REFUSED_ROOM: usize = 64;

/// Appends a number in decimal, of `most` digits at most: its last ones, where it has more.
pub fn put_decimal_in<const N: usize>(line: &mut ArrayString<N>, n: usize, most: usize)
    requires { length line.old.bytes + most ≤ N }
    ensures bytes { line.new.bytes ≡ line.old.bytes ++ decimal_in most n }
    ensures len { length line.new.bytes ≤ length line.old.bytes + most }
{
    if most == 0 {
        return;
    }
    if 10 <= n {
        put_decimal_in(line, n / 10, most - 1);
    }
    line.push(char::from(b'0' + (n % 10) as u8));
}

/// Appends a number in decimal.
pub fn put_decimal<const N: usize>(line: &mut ArrayString<N>, n: usize)
    requires { length line.old.bytes + DIGITS ≤ N }
    ensures bytes { line.new.bytes ≡ line.old.bytes ++ decimal n }
    ensures len { length line.new.bytes ≤ length line.old.bytes + DIGITS }
{
    put_decimal_in(line, n, DIGITS);
}

/// The line of a refusal, of its number and its place.
#[tactic(auto, unfolding(rows::specs::Ascii::bytes))]
pub fn refused_line_of(number: u8, place: usize) -> ArrayString<REFUSED_ROOM>
    ensures { result.bytes ≡ refused_line (record { number = number; place = place }) }
{
    let mut line = ArrayString::new();
    line.push_str("refused ");
    put_decimal_in(&mut line, usize::from(number), DIGITS);
    line.push_str(" at ");
    put_decimal_in(&mut line, place, DIGITS);
    line.push_str("\n");
    line
}

/// The line of a refusal.
pub fn refused_line(refused: Refused) -> ArrayString<REFUSED_ROOM>
    ensures { result.bytes ≡ refused_line (refusal refused) }
{
    refused_line_of(refused.number(), refused.place)
}

#[cfg(test)]
mod tests {
    use super::*;
    use refusals::Reason;

    #[test]
    fn puts_numbers(rt: HostRuntime) {
        for (n, want) in [(0, "0"), (10, "10"), (usize::MAX, "18446744073709551615")] {
            let mut line: ArrayString<REFUSED_ROOM> = ArrayString::new();
            put_decimal(&mut line, n);
            assert_eq!(rt; line.as_str(), want);
        }
    }

    // Document 01: `refused N at P`, both decimal.
    #[test]
    fn writes_refusals(rt: HostRuntime) {
        assert_eq!(rt;
            refused_line(Reason::Frame.at(0)).as_str(),
            "refused 13 at 0\n"
        );
        assert_eq!(rt;
            refused_line(Reason::BytesNeeded.at(65537)).as_str(),
            "refused 10 at 65537\n"
        );
    }
}
