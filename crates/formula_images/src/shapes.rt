// The formula at a place, taken apart.
ghost use Rattle.std.specs.Prelude.{◌≡◌, ◌+◌, ◌*◌, ◌-◌, ◌≤◌, ◌<◌, length};
ghost use Rattle.formulas.specs.Formulas.{plus, place, splits, formulas};
ghost use Rattle.formula_images.specs.Parts.{There, op_of, Comes, Splits};

use crate::counts::{binaries, count};

// A formula by its size, and its place among those of the size.
#[derive(Clone, Copy)]
pub(crate) struct Spot {
    pub(crate) size: usize,
    pub(crate) place: usize,
}

// A binary operator; its number is its place in `BinOp` of src/ast.rs.
#[derive(Clone, Copy)]
pub(crate) enum Operator {
    Plus = 8,
    Times = 10,
}

impl Operator {
    pub(crate) fn number(self) -> u8
        ensures { result ≡ place (op_of self) }
    {
        self as u8
    }
}

// What a formula is made of.
#[derive(Clone, Copy)]
pub(crate) enum Shape {
    Path,
    Binary(Operator, Spot, Spot),
    Negation(Spot),
    Parentheses(Spot),
}

// How many formulas of one operator have a left operand of size k.
fn pairs(size: usize, k: usize) -> usize
    requires { (1 ≤ k) × ((k + 2 ≤ size) × (size ≤ 7)) }
    ensures { result ≡ length (formulas k) * length (formulas (size - 1 - k)) }
{
    count(k) * count(size - 1 - k)
}

// The operands at a place among the formulas of one operator: the left ones of each size take a part of the places, the smaller first.
fn operands(size: usize, place: usize) -> (Spot, Spot)
    requires { (2 ≤ size) × ((size ≤ 7) × (place < length (splits plus formulas 1 (size - 2)))) }
    ensures { Splits size place result }
{
    let mut k = 1;
    let mut rest = place;
    let mut here = pairs(size, k);
    // kept: as a loop: where it ends depends on what each turn takes off.
    while here <= rest {
        rest -= here;
        k += 1;
        here = pairs(size, k);
    }
    let right = size - 1 - k;
    let rights = count(right);
    (
        Spot {
            size: k,
            place: rest / rights,
        },
        Spot {
            size: right,
            place: rest % rights,
        },
    )
}

// The formula at a place: plus comes first, then times, negation and parentheses.
pub(crate) fn shape_at(at: Spot) -> Shape
    requires { There at }
    ensures { Comes at result }
{
    if at.size == 1 {
        return Shape::Path;
    }
    let each = binaries(at.size);
    if at.place < each {
        let (left, right) = operands(at.size, at.place);
        return Shape::Binary(Operator::Plus, left, right);
    }
    let rest = at.place - each;
    if rest < each {
        let (left, right) = operands(at.size, rest);
        return Shape::Binary(Operator::Times, left, right);
    }
    let single = rest - each;
    let size = at.size - 1;
    let inner = count(size);
    if single < inner {
        return Shape::Negation(Spot {
            size,
            place: single,
        });
    }
    Shape::Parentheses(Spot {
        size,
        place: single - inner,
    })
}
