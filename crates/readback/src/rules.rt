// The rules that an operand may break.
ghost use Rattle.std.specs.Prelude.{◌≡◌, ◌+◌, ◌≤◌, length};
ghost use Rattle.image.specs.Read.{stop_at};
ghost use Rattle.readback.specs.Operands.{operator, right_at, left_breaks, right_breaks, broken, first_of};
ghost use Rattle.readback.specs.Standing.{Binary, Operands, OperandsAt};

use crate::operators::BinOp;
use image::bytes::num32;
use image::kinds::Kind;
use image::sizes::{HEAD, LENGTH};

// Where the child after the one at `at` stands.
fn past(image: &[u8], at: usize) -> usize
    requires { (at + 4 ≤ length image.now) × (length image.now ≤ 1048581) }
    ensures { result ≡ stop_at image.now at }
{
    at + LENGTH + num32(image, at)
}

// The operator of the 63 at `at`.
fn operator(image: &[u8], at: usize) -> BinOp
    requires { Binary image.now at }
    ensures { result ≡ operator image.now at }
{
    BinOp::of(image[past(image, at + HEAD) + HEAD])
}

// The right operand of the 63 at `at`.
fn right(image: &[u8], at: usize) -> usize
    requires { Binary image.now at }
    ensures { result ≡ right_at image.now at }
{
    past(image, past(image, at + HEAD))
}

// Whether the left operand of the 63 at `at` breaks a rule, and its right operand.
#[tactic(auto, unfolding(crate::specs::Operands::left_breaks))]
fn left_breaks(image: &[u8], at: usize) -> bool
    requires { Operands image.now at }
    ensures { result ≡ left_breaks image.now at }
{
    let left = at + HEAD;
    image[left + LENGTH] == Kind::BinOp as u8
        && !operator(image, left)
            .relative_associativity(operator(image, at))
            .is_left()
}

#[tactic(auto, unfolding(crate::specs::Operands::right_breaks))]
fn right_breaks(image: &[u8], at: usize) -> bool
    requires { Operands image.now at }
    ensures { result ≡ right_breaks image.now at }
{
    let right = right(image, at);
    image[right + LENGTH] == Kind::BinOp as u8
        && !operator(image, at)
            .relative_associativity(operator(image, right))
            .is_right()
}

// The first operand of the record at `at` that breaks a rule.
#[tactic(auto, unfolding(crate::specs::Operands::broken))]
pub(crate) fn broken_operand(image: &[u8], at: usize) -> Option<usize>
    requires { OperandsAt image.now at }
    ensures { result ≡ first_of (broken image.now at) }
{
    let kind = image[at + LENGTH];
    if kind == Kind::BinOp as u8 {
        if left_breaks(image, at) {
            return Some(at + HEAD);
        }
        if right_breaks(image, at) {
            return Some(right(image, at));
        }
        return None;
    }
    if (kind == Kind::Not as u8 || kind == Kind::Negate as u8)
        && image[at + HEAD + LENGTH] == Kind::BinOp as u8
    {
        return Some(at + HEAD);
    }
    None
}
