// The steps of a formula's image, put one after the other. Each span is 0, 0.
ghost use Rattle.std.specs.Prelude.{◌≡◌, ◌+◌, ◌*◌, ◌≤◌, length};
ghost use Rattle.image.specs.KindNumbers.{kind_number};
ghost use Rattle.steps.specs.Steps.{open_step, close_step, step_bytes};
ghost use Rattle.writer.specs.Appends.{Appends};
ghost use Rattle.writer.specs.Stands.{Puts};
ghost use Rattle.formulas.specs.Formulas.{place};
ghost use Rattle.formulas.specs.Places.{formula_at};
ghost use Rattle.formula_images.specs.Images.{text_of, path_of, operator_of, u32};
ghost use Rattle.formula_images.specs.Parts.{There, steps_in, formula_steps, const_steps, op_of};

use crate::shapes::{Operator, Shape, Spot, shape_at};
use image::kinds::Kind;
use writer::output::Output;
use writer::step::Code;

// The number of a kind. (A cast alone tells a caller nothing.)
fn number(kind: Kind) -> u8
    ensures { result ≡ kind_number kind }
{
    kind as u8
}

// Puts the step that opens a record.
fn put_open(kind: Kind, out: &mut Output)
    requires { out.old.pos + 10 ≤ 512 }
    ensures { Appends (step_bytes (open_step (kind_number kind) 0 0)) out.old out.new }
{
    out.put(Code::Open as u8);
    out.put(number(kind));
    out.put32(0);
    out.put32(0);
}

// Puts the step that closes a record.
fn put_close(out: &mut Output)
    requires { out.old.pos + 1 ≤ 512 }
    ensures { Appends (step_bytes close_step) out.old out.new }
{
    out.put(Code::Close as u8);
}

// Puts a text, its width its byte count.
fn put_text(text: &[u8], out: &mut Output)
    requires { out.old.pos + length text.now + 18 ≤ 512 }
    ensures { Appends (steps_in (text_of text.now)) out.old out.new }
{
    put_open(Kind::Text, out);
    out.put(Code::Text as u8);
    out.put16(text.len());
    out.put32(text.len());
    out.copy(text);
    put_close(out);
}

// Puts a path of one text.
fn put_path(text: &[u8], out: &mut Output)
    requires { out.old.pos + length text.now + 29 ≤ 512 }
    ensures { Appends (steps_in (path_of text.now)) out.old out.new }
{
    put_open(Kind::Path, out);
    put_text(text, out);
    put_close(out);
}

// Puts an operator.
fn put_operator(operator: Operator, out: &mut Output)
    requires { out.old.pos + 13 ≤ 512 }
    ensures { Appends (steps_in (operator_of (place (op_of operator)))) out.old out.new }
{
    put_open(Kind::Operator, out);
    out.put(Code::Payload as u8);
    out.put(operator.number());
    put_close(out);
}

// Puts the formula at a place of those of a size.
fn put_formula(at: Spot, out: &mut Output)
    requires { There at × (out.old.pos + 41 * at.size ≤ 512) }
    ensures { Appends (formula_steps (formula_at at.size at.place)) out.old out.new }
{
    match shape_at(at) {
        Shape::Path => {
            put_open(Kind::PathExpr, out);
            put_path(b"a", out);
            put_close(out);
        }
        Shape::Binary(operator, left, right) => {
            put_open(Kind::BinOp, out);
            put_formula(left, out);
            put_operator(operator, out);
            put_formula(right, out);
            put_close(out);
        }
        Shape::Negation(inner) => {
            put_open(Kind::Negate, out);
            put_formula(inner, out);
            put_close(out);
        }
        Shape::Parentheses(inner) => {
            put_open(Kind::Parentheses, out);
            put_formula(inner, out);
            put_close(out);
        }
    }
}

// Puts the type `u32`, with no parameters.
fn put_type(out: &mut Output)
    requires { out.old.pos + 44 ≤ 512 }
    ensures { Appends (steps_in u32) out.old out.new }
{
    put_open(Kind::TypePath, out);
    put_path(b"u32", out);
    out.put(Code::Absent as u8);
    put_close(out);
}

// Puts the tree, without a shebang: `const c: u32` with the formula for its body.
fn put_tree(at: Spot, out: &mut Output)
    requires { There at × (out.old.pos ≡ 0) }
    ensures { Appends (const_steps (formula_at at.size at.place)) out.old out.new }
{
    put_open(Kind::Tree, out);
    out.put(Code::Absent as u8);
    put_open(Kind::Const, out);
    put_text(b"c", out);
    put_type(out);
    put_formula(at, out);
    put_close(out);
    put_close(out);
}

// Puts the steps of the whole image to the start of a list, and answers how many bytes they have.
pub(crate) fn put_const(at: Spot, steps: &mut [u8]) -> usize
    requires { There at }
    ensures { Puts (const_steps (formula_at at.size at.place)) 0 steps.old result steps.new }
{
    let mut out = Output {
        bytes: steps,
        pos: 0,
    };
    put_tree(at, &mut out);
    out.pos
}
