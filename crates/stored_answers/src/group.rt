// The answers of a group, read from its file.
ghost use Rattle.std.specs.Prelude.{◌≡◌, length};
ghost use Rattle.input.specs.Counts.{IsPrefixLen};

use input::read_full;
use std::rt::Files;
use std::{fs, str};

/// How many bytes the answers of a group may have.
pub const ROOM: usize = 2097152;

/// So many of one value. A caller knows no more of them than how many they are: what stands in so many places is long to prove from.
pub fn filled<T: Copy, const N: usize>(value: T) -> [T; N]
    ensures { N ≡ length result }
{
    [value; N]
}

// Reads a file; how many bytes came, and 0 where it can't be opened.
fn read_file(rt: &impl Files, name: &str, room: &mut [u8]) -> usize
    ensures { IsPrefixLen result room.new }
{
    match fs::open(rt, name) {
        Ok(mut file) => read_full(&mut file, room),
        Err(_) => 0,
    }
}

/// Reads a group's file; how many bytes it has, and 0 where it is missing or has no room. A name that is no text names no file.
pub fn read(rt: &(impl Files + Print), name: &[u8], room: &mut [u8]) -> usize
    ensures { IsPrefixLen result room.new }
{
    let n = match str::from_utf8(name) {
        Ok(name) => read_file(rt, name, room),
        Err(_) => 0,
    };
    if n < room.len() {
        return n;
    }
    let _ = println!(rt; "the answers have no room");
    0
}
