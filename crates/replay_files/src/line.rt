// The line that refuses a frame, by the kit's own decimal numbers.
use itoa::Buffer;
use std::str;
use stored_answers::difference::{Difference, unless};

// What follows a text and a number that the line begins with.
fn behind<'a>(line: &'a str, before: &str, n: usize) -> Option<&'a str> {
    let mut buffer = Buffer::new();
    line.strip_prefix(before)?.strip_prefix(buffer.format(n))
}

// Whether the bytes are the line with the number and the place.
fn is_line(bytes: &[u8], number: usize, place: usize) -> bool {
    let Ok(line) = str::from_utf8(bytes) else {
        return false;
    };
    let Some(rest) = behind(line, "refused ", number) else {
        return false;
    };
    behind(rest, " at ", place) == Some("\n")
}

pub(crate) fn line_found(bytes: &[u8], number: usize, place: usize) -> Result<(), Difference> {
    unless(is_line(bytes, number, place), Difference::Reply)
}
