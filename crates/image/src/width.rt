// Where a text stands in its record, and its width, by the image's version.
ghost use Rattle.std.specs.Prelude.{◌≡◌, ◌+◌, ◌≤◌, ◌<◌, length};
ghost use Rattle.image.specs.Read.{width_bytes, stored_width};

use crate::bytes::num16;
use crate::sizes::{HEAD, WIDTH};

// How many bytes a text's width has: none in version 2.
#[tactic(auto, unfolding(crate::specs::Read::width_bytes))]
pub fn width_bytes(image: &[u8]) -> usize
    requires { 0 < length image.now }
    ensures { result ≡ width_bytes image.now }
{
    if image[0] == 1 { WIDTH } else { 0 }
}

// The width of the text at `at`, as it is stored.
#[tactic(auto, unfolding(crate::specs::Read::width_bytes, crate::specs::Read::stored_width))]
pub fn stored_width(image: &[u8], at: usize) -> usize
    requires { at + 13 + width_bytes image.now ≤ length image.now }
    ensures { (result ≡ stored_width image.now at) × (result < 65536) }
{
    if image[0] == 1 {
        return num16(image, at + HEAD);
    }
    0
}
