// Numbers of an image, big-endian.
// kept: as sums. By `from_be_bytes` of an array of the bytes layout takes 8 parts in a hundred longer, and no class may get slower.
ghost use Rattle.std.specs.Prelude.{◌≡◌, ◌+◌, ◌≤◌, ◌<◌, length};
ghost use Rattle.image.specs.Bytes.{Is16, Is32};

// The number in the two bytes at `at`.
#[tactic(auto, unfolding(crate::specs::Bytes::be16))]
pub fn num16(b: &[u8], at: usize) -> usize
    requires { at + 2 ≤ length b.now }
    ensures { Is16 b.now at result }
{
    usize::from(b[at]) * 256 + usize::from(b[at + 1])
}

// The number in the four bytes at `at`.
#[tactic(auto, unfolding(crate::specs::Bytes::be32))]
pub fn num32(b: &[u8], at: usize) -> usize
    requires { at + 4 ≤ length b.now }
    ensures { Is32 b.now at result }
{
    usize::from(b[at]) * 16777216
        + usize::from(b[at + 1]) * 65536
        + usize::from(b[at + 2]) * 256
        + usize::from(b[at + 3])
}
