// What layout matches: the enums of ast.rs, without what their variants hold, each read from the kind of a record where one of them stands.
// kept: one enum a place, and not `image::kinds::Kind`, which has the kinds of all records. By it each match has an arm for the others, and layout
// of small saves takes 2 to 4 parts in a hundred longer, of wild spans 3 to 4, since the compiler inlines no function into an arm of a match
// with more than 50; and no class may get slower.
// Each has a `read` of its own, since each matches other numbers.
use comments::parsed::Parsed;

// A declaration.
#[derive(Clone, Copy)]
pub(crate) enum Declaration {
    FilterMap,
    Const,
    Record,
    Enum,
    Function,
    Test,
    Import,
}

impl Declaration {
    ghost use Rattle.std.specs.Prelude.{◌≡◌};
    ghost use Rattle.image.specs.Read.{kind_at};
    ghost use Rattle.layout.specs.Numbers.{HasKind, declaration_number};

    pub(crate) fn read(parsed: &Parsed<'_>, at: usize) -> Declaration
        requires { HasKind 10 16 parsed.now.image.now at }
        ensures { kind_at parsed.now.image.now at ≡ declaration_number result }
    {
        match parsed.kind(at) {
            10 => Declaration::FilterMap,
            11 => Declaration::Const,
            12 => Declaration::Record,
            13 => Declaration::Enum,
            14 => Declaration::Function,
            15 => Declaration::Test,
            _ => Declaration::Import,
        }
    }
}

// A statement.
#[derive(Clone, Copy)]
pub(crate) enum Stmt {
    Let,
    Import,
    Expr,
}

impl Stmt {
    ghost use Rattle.std.specs.Prelude.{◌≡◌};
    ghost use Rattle.image.specs.Read.{kind_at};
    ghost use Rattle.layout.specs.Numbers.{HasKind, stmt_number};

    pub(crate) fn read(parsed: &Parsed<'_>, at: usize) -> Stmt
        requires { HasKind 30 32 parsed.now.image.now at }
        ensures { kind_at parsed.now.image.now at ≡ stmt_number result }
    {
        match parsed.kind(at) {
            30 => Stmt::Let,
            31 => Stmt::Import,
            _ => Stmt::Expr,
        }
    }
}

// A type.
#[derive(Clone, Copy)]
pub(crate) enum TypeExpr {
    Option,
    Path,
    Never,
    Unit,
    Record,
}

impl TypeExpr {
    ghost use Rattle.std.specs.Prelude.{◌≡◌};
    ghost use Rattle.image.specs.Read.{kind_at};
    ghost use Rattle.layout.specs.Numbers.{HasKind, type_number};

    pub(crate) fn read(parsed: &Parsed<'_>, at: usize) -> TypeExpr
        requires { HasKind 40 44 parsed.now.image.now at }
        ensures { kind_at parsed.now.image.now at ≡ type_number result }
    {
        match parsed.kind(at) {
            40 => TypeExpr::Option,
            41 => TypeExpr::Path,
            42 => TypeExpr::Never,
            43 => TypeExpr::Unit,
            _ => TypeExpr::Record,
        }
    }
}

// An expression.
#[derive(Clone, Copy, PartialEq, Eq)]
pub(crate) enum Expr {
    Return,
    Literal,
    Block,
    Match,
    FunctionCall,
    Access,
    Path,
    Record,
    TypedRecord,
    List,
    Not,
    Assign,
    CompoundAssign,
    BinOp,
    Negate,
    IfElse,
    While,
    For,
    QuestionMark,
    FString,
    Parentheses,
}

impl Expr {
    ghost use Rattle.std.specs.Prelude.{◌≡◌};
    ghost use Rattle.image.specs.Read.{kind_at};
    ghost use Rattle.layout.specs.Numbers.{HasKind, expr_number};

    pub(crate) fn read(parsed: &Parsed<'_>, at: usize) -> Expr
        requires { HasKind 50 70 parsed.now.image.now at }
        ensures { kind_at parsed.now.image.now at ≡ expr_number result }
    {
        match parsed.kind(at) {
            50 => Expr::Return,
            51 => Expr::Literal,
            52 => Expr::Block,
            53 => Expr::Match,
            54 => Expr::FunctionCall,
            55 => Expr::Access,
            56 => Expr::Path,
            57 => Expr::Record,
            58 => Expr::TypedRecord,
            59 => Expr::List,
            60 => Expr::Not,
            61 => Expr::Assign,
            62 => Expr::CompoundAssign,
            63 => Expr::BinOp,
            64 => Expr::Negate,
            65 => Expr::IfElse,
            66 => Expr::While,
            67 => Expr::For,
            68 => Expr::QuestionMark,
            69 => Expr::FString,
            _ => Expr::Parentheses,
        }
    }
}

// A pattern.
#[derive(Clone, Copy, PartialEq, Eq)]
pub(crate) enum Pattern {
    Underscore,
    EnumVariant,
}

impl Pattern {
    ghost use Rattle.std.specs.Prelude.{◌≡◌};
    ghost use Rattle.image.specs.Read.{kind_at};
    ghost use Rattle.layout.specs.Numbers.{HasKind, pattern_number};

    pub(crate) fn read(parsed: &Parsed<'_>, at: usize) -> Pattern
        requires { HasKind 82 83 parsed.now.image.now at }
        ensures { kind_at parsed.now.image.now at ≡ pattern_number result }
    {
        match parsed.kind(at) {
            82 => Pattern::Underscore,
            _ => Pattern::EnumVariant,
        }
    }
}

// A part of an f-string.
#[derive(Clone, Copy, PartialEq, Eq)]
pub(crate) enum FStringPart {
    String,
    Expr,
}

impl FStringPart {
    ghost use Rattle.std.specs.Prelude.{◌≡◌};
    ghost use Rattle.image.specs.Read.{kind_at};
    ghost use Rattle.layout.specs.Numbers.{HasKind, part_number};

    pub(crate) fn read(parsed: &Parsed<'_>, at: usize) -> FStringPart
        requires { HasKind 84 85 parsed.now.image.now at }
        ensures { kind_at parsed.now.image.now at ≡ part_number result }
    {
        match parsed.kind(at) {
            84 => FStringPart::String,
            _ => FStringPart::Expr,
        }
    }
}
