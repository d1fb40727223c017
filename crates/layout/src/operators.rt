// Operators, and the words and precedences that go with them.
use crate::forms::Precedence;
use acts::words::Word;
use comments::parsed::Parsed;

// `BinOp`, its variants in order.
#[derive(Clone, Copy)]
pub(crate) enum BinOp {
    And,
    Or,
    Eq,
    Ne,
    Lt,
    Le,
    Gt,
    Ge,
    Add,
    Sub,
    Mul,
    Div,
    Mod,
    Exp,
}

impl BinOp {
    ghost use Rattle.std.specs.Prelude.{◌≡◌, ◌<◌};
    ghost use Rattle.acts.specs.Spelling.{spelling};
    ghost use Rattle.layout.specs.Layout.{symbol, binop_precedence};
    ghost use Rattle.layout.specs.Ranks.{rank, operator_number};

    // The operator with the number in the image.
    pub(crate) fn of(number: usize) -> BinOp
        requires { number < 14 }
        ensures { operator_number result ≡ number }
    {
        match number {
            0 => BinOp::And,
            1 => BinOp::Or,
            2 => BinOp::Eq,
            3 => BinOp::Ne,
            4 => BinOp::Lt,
            5 => BinOp::Le,
            6 => BinOp::Gt,
            7 => BinOp::Ge,
            8 => BinOp::Add,
            9 => BinOp::Sub,
            10 => BinOp::Mul,
            11 => BinOp::Div,
            12 => BinOp::Mod,
            _ => BinOp::Exp,
        }
    }

    // `binop_precedence`
    pub(crate) fn precedence(self) -> Precedence
        ensures { rank result ≡ binop_precedence (operator_number self) }
    {
        match self {
            BinOp::And => Precedence::LogicalAnd,
            BinOp::Or => Precedence::LogicalOr,
            BinOp::Eq => Precedence::Comparison,
            BinOp::Ne => Precedence::Comparison,
            BinOp::Lt => Precedence::Comparison,
            BinOp::Le => Precedence::Comparison,
            BinOp::Gt => Precedence::Comparison,
            BinOp::Ge => Precedence::Comparison,
            BinOp::Add => Precedence::AddSub,
            BinOp::Sub => Precedence::AddSub,
            BinOp::Mul => Precedence::MulDiv,
            BinOp::Div => Precedence::MulDiv,
            BinOp::Mod => Precedence::MulDiv,
            BinOp::Exp => Precedence::Exp,
        }
    }

    // The word of `binop`.
    pub(crate) fn symbol(self) -> Word
        ensures { spelling result ≡ symbol (operator_number self) }
    {
        match self {
            BinOp::And => Word::And,
            BinOp::Or => Word::Or,
            BinOp::Eq => Word::Equal,
            BinOp::Ne => Word::NotEqual,
            BinOp::Lt => Word::Less,
            BinOp::Le => Word::LessOrEqual,
            BinOp::Gt => Word::Greater,
            BinOp::Ge => Word::GreaterOrEqual,
            BinOp::Add => Word::Plus,
            BinOp::Sub => Word::Minus,
            BinOp::Mul => Word::Star,
            BinOp::Div => Word::Slash,
            BinOp::Mod => Word::Percent,
            BinOp::Exp => Word::StarStar,
        }
    }
}

ghost use Rattle.std.specs.Prelude.{◌≡◌, ◌+◌, ◌<◌, ◌≤◌, get_or, length};
ghost use Rattle.acts.specs.Spelling.{spelling};
ghost use Rattle.layout.specs.Layout.{assign_symbol, return_word};
ghost use Rattle.layout.specs.Chains.{HasOperator, operator_of};

// The symbol of the compound assignment at `at`.
// kept: here and below: each number is looked at once, for its word; an enum between them would be a second match on the same few cases.
pub(crate) fn assign_word(parsed: &Parsed<'_>, at: usize) -> Word
    requires { HasOperator parsed.now.image.now at 5 }
    ensures { spelling result ≡ assign_symbol (operator_of parsed.now.image.now at) }
{
    match parsed.payload(parsed.second(at)) {
        0 => Word::AddAssign,
        1 => Word::SubAssign,
        2 => Word::MulAssign,
        3 => Word::DivAssign,
        _ => Word::ModAssign,
    }
}

// `return`, `accept` or `reject`, as the expression at `at` says.
pub(crate) fn return_word(parsed: &Parsed<'_>, at: usize) -> Word
    requires at_in_bounds { at + 14 ≤ length parsed.now.image.now }
    requires at_bound { get_or parsed.now.image.now (at + 13) 0 < 3 }
    ensures { spelling result ≡ return_word (get_or parsed.now.image.now (at + 13) 0) }
{
    match parsed.payload(at) {
        0 => Word::Return,
        1 => Word::Accept,
        _ => Word::Reject,
    }
}
