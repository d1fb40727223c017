// src/parser/precedence.rs: the functions of `BinOp` by their names.

// `BinOp` of src/ast.rs, its variants in order.
#[derive(Clone, Copy)]
pub(crate) enum BinOp {
    And,
    Or,
    Eq,
    Ne,
    Lt,
    Le,
    Gt,
    Ge,
    Add,
    Sub,
    Mul,
    Div,
    Mod,
    Exp,
}

// `Precedence`, its variants in order.
#[derive(Clone, Copy, PartialEq, PartialOrd)]
pub(crate) enum Precedence {
    Logical,
    Comparison,
    AddSub,
    MulDiv,
    Exp,
}

// `Associativity`
#[derive(Clone, Copy)]
pub(crate) enum Associativity {
    Left,
    Right,
    Not,
}

impl BinOp {
    ghost use Rattle.std.specs.Prelude.{◌≡◌};
    ghost use Rattle.readback.specs.Precedence.{operator_of, precedence, associativity, is_mixed, relative_associativity};

    // The operator with this number in the image.
    #[tactic(auto, unfolding(crate::specs::Precedence::operator_of))]
    pub(crate) fn of(number: u8) -> BinOp
        ensures { result ≡ operator_of number }
    {
        match number {
            0 => BinOp::And,
            1 => BinOp::Or,
            2 => BinOp::Eq,
            3 => BinOp::Ne,
            4 => BinOp::Lt,
            5 => BinOp::Le,
            6 => BinOp::Gt,
            7 => BinOp::Ge,
            8 => BinOp::Add,
            9 => BinOp::Sub,
            10 => BinOp::Mul,
            11 => BinOp::Div,
            12 => BinOp::Mod,
            _ => BinOp::Exp,
        }
    }

    fn precedence(self) -> Precedence
        ensures { result ≡ precedence self }
    {
        match self {
            BinOp::Or => Precedence::Logical,
            BinOp::And => Precedence::Logical,
            BinOp::Eq => Precedence::Comparison,
            BinOp::Ne => Precedence::Comparison,
            BinOp::Lt => Precedence::Comparison,
            BinOp::Le => Precedence::Comparison,
            BinOp::Gt => Precedence::Comparison,
            BinOp::Ge => Precedence::Comparison,
            BinOp::Mul => Precedence::MulDiv,
            BinOp::Div => Precedence::MulDiv,
            BinOp::Mod => Precedence::MulDiv,
            BinOp::Add => Precedence::AddSub,
            BinOp::Sub => Precedence::AddSub,
            BinOp::Exp => Precedence::Exp,
        }
    }

    fn associativity(self) -> Associativity
        ensures { result ≡ associativity self }
    {
        match self.precedence() {
            Precedence::AddSub => Associativity::Left,
            Precedence::MulDiv => Associativity::Left,
            Precedence::Logical => Associativity::Left,
            Precedence::Comparison => Associativity::Not,
            Precedence::Exp => Associativity::Right,
        }
    }

    // Whether one is `&&` and the other `||`.
    fn is_mixed(self, other: BinOp) -> bool
        ensures { result ≡ is_mixed self other }
    {
        matches!(
            (self, other),
            (BinOp::Or, BinOp::And) | (BinOp::And, BinOp::Or)
        )
    }

    #[tactic(auto, unfolding(crate::specs::Precedence::relative_associativity))]
    pub(crate) fn relative_associativity(self, other: BinOp) -> Associativity
        ensures { result ≡ relative_associativity self other }
    {
        if self.is_mixed(other) {
            return Associativity::Not;
        }
        let own = self.precedence();
        let others = other.precedence();
        if own < others {
            return Associativity::Right;
        }
        if others < own {
            return Associativity::Left;
        }
        self.associativity()
    }
}

impl Associativity {
    ghost use Rattle.std.specs.Prelude.{◌≡◌};
    ghost use Rattle.readback.specs.Precedence.{is_left, is_right};

    pub(crate) fn is_left(self) -> bool
        ensures { result ≡ is_left self }
    {
        matches!(self, Associativity::Left)
    }

    pub(crate) fn is_right(self) -> bool
        ensures { result ≡ is_right self }
    {
        matches!(self, Associativity::Right)
    }
}
