// The parts of `binop` that lay no operand.
ghost use Rattle.std.specs.Prelude.{◌≡◌, length};
ghost use Rattle.layout.specs.Layout.{binop_precedence};
ghost use Rattle.layout.specs.Promises.{Has, LaidAs};
ghost use Rattle.layout.specs.Forms.{OperatorAt, operator_rule};
ghost use Rattle.layout.specs.Chains.{HasChain, Leftmost, HasOperator, operator_of};
ghost use Rattle.layout.specs.Ranks.{rank};

use crate::forms::Precedence;
use crate::kinds::Expr;
use crate::operators::BinOp;
use crate::pieces::between;
use acts::State;
use acts::leaves::Leaf;
use acts::words::Word;
use comments::parsed::Parsed;
use comments::{Kept, pop_whitespace};
use image::sizes::HEAD;

// The precedence of the operator at `at`.
pub(crate) fn precedence(parsed: &Parsed<'_>, at: usize) -> Precedence
    requires { HasOperator parsed.now.image.now at 14 }
    ensures { rank result ≡ binop_precedence (operator_of parsed.now.image.now at) }
{
    BinOp::of(parsed.payload(parsed.second(at))).precedence()
}

// What comes before the right operand of the operator whose symbol is at `at`.
pub(crate) fn operator(state: &mut State<'_>, parsed: &Parsed<'_>, at: usize, first: bool)
    requires { Has OperatorAt (operator_rule first) parsed.now at state.old.cursor }
    ensures { LaidAs OperatorAt (operator_rule first) parsed.now at state.old state.new }
{
    let symbol = BinOp::of(parsed.payload(at)).symbol();
    let gap = pop_whitespace(state, parsed, parsed.start(at), &Kept::AROUND_COMMENTS);
    between(state, Leaf::LineOrSpace, first, gap);
    state.word(symbol);
    state.word(Word::Space);
}

// The offset of the operand that starts the chain of operators of precedence q at `at`. The operators go onto the stack, the top first.
// kept: document 01 wants an array of 64, and a loop that breaks with the offset.
pub(crate) fn leftmost(
    parsed: &Parsed<'_>,
    at: usize,
    q: Precedence,
    ops: &mut [usize; 64],
) -> usize
    requires has_chain { HasChain parsed.now.image.now at (rank q) }
    requires ops_len { length ops.old ≡ 64 }
    ensures { Leftmost parsed.now.image.now at (rank q) ops.new result }
{
    ops[0] = at;
    let mut n = 1usize;
    let mut p = at + HEAD;
    loop {
        if Expr::read(parsed, p) != Expr::BinOp {
            break p;
        }
        if precedence(parsed, p) != q {
            break p;
        }
        ops[n] = p;
        n += 1;
        p += HEAD;
    }
}
