// The kinds of records, by document 01's names and those of ast.rs.
ghost use Rattle.std.specs.Prelude.{◌≡◌, eqb};
ghost use Rattle.image.specs.Grammar.{has_byte};
ghost use Rattle.image.specs.Kinds.{TEXT};
ghost use Rattle.image.specs.KindNumbers.{kind_number, kind_of};

#[derive(Clone, Copy, Debug, PartialEq, Eq)]
pub enum Kind {
    // the tree
    Tree = 1,
    // a text: its width, then its bytes
    Text = 2,
    // a list
    List = 3,
    // a path
    Path = 4,
    // declarations: `filtermap`
    FilterMap = 10,
    Const = 11,
    Record = 12,
    Enum = 13,
    // `fn`
    Function = 14,
    Test = 15,
    // also the path of an import within another
    Import = 16,
    // a parameter, or a field of a record type
    NameAndType = 20,
    // of an enum
    Variant = 21,
    // of a record
    Field = 22,
    Block = 23,
    // statements
    Let = 30,
    ImportStmt = 31,
    ExprStmt = 32,
    // types
    Option = 40,
    TypePath = 41,
    Never = 42,
    Unit = 43,
    RecordType = 44,
    // expressions, in the order of `Expr`
    Return = 50,
    LiteralExpr = 51,
    BlockExpr = 52,
    Match = 53,
    FunctionCall = 54,
    Access = 55,
    PathExpr = 56,
    RecordExpr = 57,
    TypedRecord = 58,
    ListExpr = 59,
    Not = 60,
    Assign = 61,
    CompoundAssign = 62,
    BinOp = 63,
    Negate = 64,
    IfElse = 65,
    While = 66,
    For = 67,
    QuestionMark = 68,
    FString = 69,
    Parentheses = 70,
    // parts of expressions: the fields of a record
    RecordFields = 80,
    // of a match
    Arm = 81,
    // patterns
    Underscore = 82,
    EnumVariant = 83,
    // parts of an f-string
    TextPart = 84,
    ExprPart = 85,
    Operator = 86,
    Literal = 87,
}

impl Kind {
    // Whether a record of this kind is a text.
    pub fn is_text(self) -> bool
        ensures { result ≡ eqb (kind_number self) TEXT }
    {
        self == Kind::Text
    }

    // Whether it has a payload byte.
    pub fn has_byte(self) -> bool
        ensures { result ≡ has_byte (kind_number self) }
    {
        self == Kind::Return || self == Kind::Operator || self == Kind::Literal
    }

    // The kind of a byte, if it is one's.
    #[tactic(auto, unfolding(crate::specs::KindNumbers::kind_of))]
    pub fn of(byte: u8) -> Option<Kind>
        ensures { result ≡ kind_of byte }
    {
        match byte {
            1 => Some(Kind::Tree),
            2 => Some(Kind::Text),
            3 => Some(Kind::List),
            4 => Some(Kind::Path),
            10 => Some(Kind::FilterMap),
            11 => Some(Kind::Const),
            12 => Some(Kind::Record),
            13 => Some(Kind::Enum),
            14 => Some(Kind::Function),
            15 => Some(Kind::Test),
            16 => Some(Kind::Import),
            20 => Some(Kind::NameAndType),
            21 => Some(Kind::Variant),
            22 => Some(Kind::Field),
            23 => Some(Kind::Block),
            30 => Some(Kind::Let),
            31 => Some(Kind::ImportStmt),
            32 => Some(Kind::ExprStmt),
            40 => Some(Kind::Option),
            41 => Some(Kind::TypePath),
            42 => Some(Kind::Never),
            43 => Some(Kind::Unit),
            44 => Some(Kind::RecordType),
            50 => Some(Kind::Return),
            51 => Some(Kind::LiteralExpr),
            52 => Some(Kind::BlockExpr),
            53 => Some(Kind::Match),
            54 => Some(Kind::FunctionCall),
            55 => Some(Kind::Access),
            56 => Some(Kind::PathExpr),
            57 => Some(Kind::RecordExpr),
            58 => Some(Kind::TypedRecord),
            59 => Some(Kind::ListExpr),
            60 => Some(Kind::Not),
            61 => Some(Kind::Assign),
            62 => Some(Kind::CompoundAssign),
            63 => Some(Kind::BinOp),
            64 => Some(Kind::Negate),
            65 => Some(Kind::IfElse),
            66 => Some(Kind::While),
            67 => Some(Kind::For),
            68 => Some(Kind::QuestionMark),
            69 => Some(Kind::FString),
            70 => Some(Kind::Parentheses),
            80 => Some(Kind::RecordFields),
            81 => Some(Kind::Arm),
            82 => Some(Kind::Underscore),
            83 => Some(Kind::EnumVariant),
            84 => Some(Kind::TextPart),
            85 => Some(Kind::ExprPart),
            86 => Some(Kind::Operator),
            87 => Some(Kind::Literal),
            _ => None,
        }
    }
}
