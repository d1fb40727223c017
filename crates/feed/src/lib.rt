// The files of an input, one after another: two lengths of four bytes, of source and image; the source; the image.
#![tactic(auto)]

ghost use Rattle.std.specs.Prelude.{◌≡◌, ◌+◌, ◌<◌, ◌^◌, min, length};
ghost use Rattle.feed.specs.Input.{source_length, image_length, came, after, Arrives, ReadsFile};

use image::bytes::num32;
use image::limits::{MAX_BODY, MAX_SOURCE};
use image::sizes::HEADER;
use input::read_full;
use std::io;

// What is kept of a source and of an image: one byte more than document 01 lets pass. A source over 65,536 bytes is refused by 1, and an
// image over 1,048,581 by 3 if 1 and 2 don't refuse its source, whatever stands in them. So the front is enough, and the rest is passed over
// (crates/report/specs/Front.antt).
pub const SOURCE_KEPT: usize = MAX_SOURCE + 1;

pub const IMAGE_KEPT: usize = HEADER + MAX_BODY + 1;

// The two lengths, and where each stands.
pub const LENGTHS: usize = 8;

const SOURCE_LENGTH: usize = 0;

const IMAGE_LENGTH: usize = 4;

// How much is read at once of what is passed over.
const PIECE: usize = 65536;

// The input ended inside what was asked for; so many bytes of it came.
#[derive(Clone, Copy, Debug, PartialEq, Eq)]
pub struct Cut {
    pub bytes: usize,
}

// What came of a part, together with the bytes before it.
fn after(before: usize, part: Result<usize, Cut>) -> Result<usize, Cut>
    requires { before + came part < 2 ^ 64 }
    ensures { result ≡ after before part }
{
    match part {
        Ok(bytes) => Ok(before + bytes),
        Err(cut) => Err(Cut {
            bytes: before + cut.bytes,
        }),
    }
}

// Reads bytes to a buffer, until it is full.
fn read_front<R: io::Read>(input: &mut R, b: &mut [u8]) -> Result<usize, Cut>
    ensures { Arrives (length b.old) result }
{
    let bytes = read_full(input, b);
    if bytes < b.len() {
        return Err(Cut { bytes });
    }
    Ok(bytes)
}

// Reads bytes that are not kept.
// kept: a loop: all pieces but the last have the same size, and each may fail; a range would leave the last to be read behind it.
fn pass_over<R: io::Read>(input: &mut R, n: usize) -> Result<usize, Cut>
    ensures { Arrives n result }
{
    let mut piece = [0u8; PIECE];
    let mut passed = 0;
    while passed < n {
        let some = (n - passed).min(PIECE);
        passed = after(passed, read_front(input, &mut piece[..some]))?;
    }
    Ok(passed)
}

// Reads a part of a file: keeps as much as there is room for, and passes over the rest.
fn read_part<R: io::Read>(input: &mut R, room: &mut [u8], n: usize) -> Result<usize, Cut>
    ensures { Arrives n result }
{
    let kept = n.min(room.len());
    let front = read_front(input, &mut room[..kept])?;
    after(front, pass_over(input, n - kept))
}

// Reads the next file into buffers, as much of it as they keep, and answers how many bytes it has; none where the input has no further byte.
pub fn read_file<R: io::Read>(
    input: &mut R,
    lengths: &mut [u8; LENGTHS],
    source: &mut [u8],
    image: &mut [u8],
) -> Result<Option<usize>, Cut>
    ensures { ReadsFile lengths.new result }
{
    let head = match read_front(input, lengths) {
        Ok(bytes) => bytes,
        Err(cut) if cut.bytes == 0 => return Ok(None),
        Err(cut) => return Err(cut),
    };
    let before = after(
        head,
        read_part(input, source, num32(lengths, SOURCE_LENGTH)),
    )?;
    let all = after(
        before,
        read_part(input, image, num32(lengths, IMAGE_LENGTH)),
    )?;
    Ok(Some(all))
}

// How many bytes of a source, and of an image, a buffer with room keeps.
pub fn source_kept(lengths: &[u8; LENGTHS], room: usize) -> usize
    ensures { result ≡ min (source_length lengths.now) room }
{
    num32(lengths, SOURCE_LENGTH).min(room)
}

pub fn image_kept(lengths: &[u8; LENGTHS], room: usize) -> usize
    ensures { result ≡ min (image_length lengths.now) room }
{
    num32(lengths, IMAGE_LENGTH).min(room)
}
