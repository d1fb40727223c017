// The kinds of rows, in the order of `Node`.
ghost use Rattle.std.specs.Prelude.{◌≡◌};
ghost use Rattle.rows.specs.Kinds.{number_of, kind_of};

#[derive(Clone, Copy, Debug, PartialEq, Eq)]
pub enum Kind {
    Group,
    Indent,
    IndentNext,
    WrapParent,
    Comment,
    Str,
    Ascii,
    Line,
    EmptyLine,
    LineOrSpace,
    IfWrap,
    Call,
}

impl Kind {
    // As it is written in a row.
    pub fn number(self) -> u32
        ensures { result ≡ number_of self }
    {
        // kept: an enum's number is got by a cast alone; a table of the twelve would say them twice.
        self as u32
    }

    // The kind of a number, if it has one.
    #[tactic(auto, unfolding(crate::specs::Kinds::kind_of))]
    pub fn of(number: usize) -> Option<Kind>
        ensures { result ≡ kind_of number }
    {
        match number {
            0 => Some(Kind::Group),
            1 => Some(Kind::Indent),
            2 => Some(Kind::IndentNext),
            3 => Some(Kind::WrapParent),
            4 => Some(Kind::Comment),
            5 => Some(Kind::Str),
            6 => Some(Kind::Ascii),
            7 => Some(Kind::Line),
            8 => Some(Kind::EmptyLine),
            9 => Some(Kind::LineOrSpace),
            10 => Some(Kind::IfWrap),
            11 => Some(Kind::Call),
            _ => None,
        }
    }
}
