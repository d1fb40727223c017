// The fixed words of fmt.rs.
ghost use Rattle.std.specs.Prelude.{◌≡◌};
ghost use Rattle.acts.specs.Spelling.{place_of};

// In the order in which they stand in the text that holds them all. `Empty` is the empty word, which that text needs no place for.
#[derive(Clone, Copy, Debug, PartialEq, Eq)]
pub enum Word {
    FilterMap,
    Const,
    Record,
    Enum,
    Fn,
    Test,
    Import,
    Arrow,
    Let,
    Return,
    Accept,
    Reject,
    Match,
    If,
    While,
    For,
    Else,
    In,
    Guard,
    FatArrow,
    Assign,
    AddAssign,
    SubAssign,
    MulAssign,
    DivAssign,
    ModAssign,
    Colon,
    Space,
    Semicolon,
    Comma,
    Dot,
    Question,
    Not,
    Minus,
    Underscore,
    ParenOpen,
    ParenClose,
    BracketOpen,
    BracketClose,
    BraceOpen,
    BraceClose,
    Unit,
    FQuote,
    Quote,
    True,
    False,
    And,
    Or,
    Equal,
    NotEqual,
    Less,
    LessOrEqual,
    Greater,
    GreaterOrEqual,
    Plus,
    Star,
    Slash,
    Percent,
    StarStar,
    Empty,
}

// Where a word starts in the text that holds them all, and how many bytes it has.
#[derive(Clone, Copy, Debug, PartialEq, Eq)]
pub struct Place {
    pub start: u32,
    pub size: u32,
}

// The places of the words, in the order of `Word`. (A constant would be copied at each use.)
static PLACES: [Place; 60] = [
    Place { start: 0, size: 10 },
    Place { start: 10, size: 6 },
    Place { start: 16, size: 7 },
    Place { start: 23, size: 5 },
    Place { start: 28, size: 3 },
    Place { start: 31, size: 5 },
    Place { start: 36, size: 7 },
    Place { start: 43, size: 3 },
    Place { start: 46, size: 4 },
    Place { start: 50, size: 6 },
    Place { start: 56, size: 6 },
    Place { start: 62, size: 6 },
    Place { start: 68, size: 6 },
    Place { start: 74, size: 3 },
    Place { start: 77, size: 6 },
    Place { start: 83, size: 4 },
    Place { start: 87, size: 6 },
    Place { start: 93, size: 4 },
    Place { start: 97, size: 4 },
    Place {
        start: 101,
        size: 4,
    },
    Place {
        start: 105,
        size: 3,
    },
    Place {
        start: 108,
        size: 4,
    },
    Place {
        start: 112,
        size: 4,
    },
    Place {
        start: 116,
        size: 4,
    },
    Place {
        start: 120,
        size: 4,
    },
    Place {
        start: 124,
        size: 4,
    },
    Place {
        start: 128,
        size: 2,
    },
    Place {
        start: 130,
        size: 1,
    },
    Place {
        start: 131,
        size: 1,
    },
    Place {
        start: 132,
        size: 1,
    },
    Place {
        start: 133,
        size: 1,
    },
    Place {
        start: 134,
        size: 1,
    },
    Place {
        start: 135,
        size: 1,
    },
    Place {
        start: 136,
        size: 1,
    },
    Place {
        start: 137,
        size: 1,
    },
    Place {
        start: 138,
        size: 1,
    },
    Place {
        start: 139,
        size: 1,
    },
    Place {
        start: 140,
        size: 1,
    },
    Place {
        start: 141,
        size: 1,
    },
    Place {
        start: 142,
        size: 1,
    },
    Place {
        start: 143,
        size: 1,
    },
    Place {
        start: 144,
        size: 2,
    },
    Place {
        start: 146,
        size: 2,
    },
    Place {
        start: 148,
        size: 1,
    },
    Place {
        start: 149,
        size: 4,
    },
    Place {
        start: 153,
        size: 5,
    },
    Place {
        start: 158,
        size: 2,
    },
    Place {
        start: 160,
        size: 2,
    },
    Place {
        start: 162,
        size: 2,
    },
    Place {
        start: 164,
        size: 2,
    },
    Place {
        start: 166,
        size: 1,
    },
    Place {
        start: 167,
        size: 2,
    },
    Place {
        start: 169,
        size: 1,
    },
    Place {
        start: 170,
        size: 2,
    },
    Place {
        start: 172,
        size: 1,
    },
    Place {
        start: 173,
        size: 1,
    },
    Place {
        start: 174,
        size: 1,
    },
    Place {
        start: 175,
        size: 1,
    },
    Place {
        start: 176,
        size: 2,
    },
    Place { start: 0, size: 0 },
];

pub(crate) fn place_of(word: Word) -> Place
    ensures { result ≡ place_of word }
{
    PLACES[word as usize]
}
