// What the layout functions are given besides offsets: precedences, and what `separated` needs to know of its list.
use acts::words::Word;

// `Precedence`, its variants in order.
#[derive(Clone, Copy, Debug, PartialEq, Eq, PartialOrd, Ord)]
pub enum Precedence {
    Bottom,
    LogicalOr,
    LogicalAnd,
    Comparison,
    AddSub,
    MulDiv,
    Exp,
    Not,
    Chain,
    Unit,
}

// `separated(start, end, separator, .., style, f)`: the words around the list, whether commas separate its elements, and its style.
#[derive(Clone, Copy, Debug, PartialEq, Eq)]
pub struct ListForm {
    pub left: Word,
    pub right: Word,
    pub commas: bool,
    pub style: WrapStyle,
}

// `WrapStyle`
#[derive(Clone, Copy, Debug, PartialEq, Eq)]
pub enum WrapStyle {
    Tight,
    Spaced,
    Wrap,
}

pub const PARENS: ListForm = ListForm {
    left: Word::ParenOpen,
    right: Word::ParenClose,
    commas: true,
    style: WrapStyle::Tight,
};

pub const BRACKETS: ListForm = ListForm {
    left: Word::BracketOpen,
    right: Word::BracketClose,
    commas: true,
    style: WrapStyle::Tight,
};

pub const BRACES: ListForm = ListForm {
    left: Word::BraceOpen,
    right: Word::BraceClose,
    commas: true,
    style: WrapStyle::Tight,
};
