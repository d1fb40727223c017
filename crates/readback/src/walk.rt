// The records of a tree, one after the other.
ghost use Rattle.std.specs.Prelude.{◌≡◌};
ghost use Rattle.image.specs.Read.{head_at};
ghost use Rattle.readback.specs.Standing.{TreeAt, FirstBroken, WholeAt};

use crate::rules::broken_operand;
use image::bytes::num32;
use image::kinds::Kind;
use image::sizes::{HEAD, LENGTH};

// Where the payload of the record at `at` ends, which has n bytes behind its length.
#[tactic(auto, unfolding(image::specs::Grammar::first_child))]
fn payload_end(image: &[u8], at: usize, n: usize) -> usize
    requires { WholeAt image.now at n }
    ensures { result ≡ (head_at image.now at).first }
{
    let kind = image[at + LENGTH];
    if kind == Kind::Text as u8 {
        return at + LENGTH + n;
    }
    if kind == Kind::Return as u8 || kind == Kind::Operator as u8 || kind == Kind::Literal as u8 {
        return at + HEAD + 1;
    }
    at + HEAD
}

// The least offset of an operand that breaks a rule in the tree at `tree`, which reaches to the image's end; or the image's length. Behind a
// record's payload stands its first child, and behind its last child the record after it: so one loop comes to all of them, in reading order, and
// what is past an offender holds none before it.
pub(crate) fn first_broken(image: &[u8], tree: usize) -> usize
    requires { TreeAt image.now tree }
    ensures { FirstBroken image.now tree result }
{
    let mut best = image.len();
    let mut at = tree;
    // kept: as a loop, like that of moves' fault.rt: records are entered, and not gone over side by side.
    while at < best {
        let n = num32(image, at);
        if n == 0 {
            at += LENGTH;
            continue;
        }
        if let Some(operand) = broken_operand(image, at) {
            best = best.min(operand);
        }
        at = payload_end(image, at, n);
    }
    best
}
