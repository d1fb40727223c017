// Which payload and which children a record has, kind by kind.
ghost use Rattle.std.specs.Prelude.{◌≡◌, ◌+◌, ◌≤◌, ◌<◌, ◌^◌, length};
ghost use Rattle.text.specs.Utf8.{well_formed};
ghost use Rattle.image.specs.Bytes.{part};
ghost use Rattle.image.specs.Grammar.{row_of, row_under_of, kind_fits_of, top_byte, payload_fits, first_child, is_optional, bare, after, complete};
ghost use Rattle.image.specs.KindNumbers.{kind_number};
ghost use Rattle.image.specs.Places.{due_number, place_number, row_number};
ghost use Rattle.image.specs.Read.{width_bytes};

use crate::kinds::Kind;
use crate::width::width_bytes;
use Place::{Many, One, Optional};

// What may stand where a child is due: a record of one kind, or of one of several.
#[derive(Clone, Copy, Debug, PartialEq, Eq)]
pub enum Due {
    Tree,
    Text,
    Path,
    Import,
    NameAndType,
    Variant,
    Field,
    Block,
    RecordFields,
    Arm,
    Operator,
    // of a compound assignment
    AssignOperator,
    Literal,
    // any of these
    Declaration,
    Statement,
    Type,
    Expr,
    Pattern,
    StringPart,
    // a list of such
    Texts,
    Imports,
    NamesAndTypes,
    Variants,
    Arms,
    Statements,
    Types,
    Exprs,
    StringParts,
}

// The lowest and the highest of the numbers of kinds that may stand somewhere.
#[derive(Clone, Copy)]
struct Range(u8, u8);

const LIST: Range = Range(Kind::List as u8, Kind::List as u8);

// In the order of `Due`. (A constant would be copied at each use.)
// kept: a table by the enum, as document 01 has one: a `match` of 28 arms would say it in as many lines.
static RANGES: [Range; 28] = [
    Range(Kind::Tree as u8, Kind::Tree as u8),
    Range(Kind::Text as u8, Kind::Text as u8),
    Range(Kind::Path as u8, Kind::Path as u8),
    Range(Kind::Import as u8, Kind::Import as u8),
    Range(Kind::NameAndType as u8, Kind::NameAndType as u8),
    Range(Kind::Variant as u8, Kind::Variant as u8),
    Range(Kind::Field as u8, Kind::Field as u8),
    Range(Kind::Block as u8, Kind::Block as u8),
    Range(Kind::RecordFields as u8, Kind::RecordFields as u8),
    Range(Kind::Arm as u8, Kind::Arm as u8),
    Range(Kind::Operator as u8, Kind::Operator as u8),
    Range(Kind::Operator as u8, Kind::Operator as u8),
    Range(Kind::Literal as u8, Kind::Literal as u8),
    Range(Kind::FilterMap as u8, Kind::Import as u8),
    Range(Kind::Let as u8, Kind::ExprStmt as u8),
    Range(Kind::Option as u8, Kind::RecordType as u8),
    Range(Kind::Return as u8, Kind::Parentheses as u8),
    Range(Kind::Underscore as u8, Kind::EnumVariant as u8),
    Range(Kind::TextPart as u8, Kind::ExprPart as u8),
    LIST,
    LIST,
    LIST,
    LIST,
    LIST,
    LIST,
    LIST,
    LIST,
    LIST,
];

impl Due {
    // Whether a record of the kind with this number is right here.
    pub fn fits(self, kind: u8) -> bool
        ensures { result ≡ kind_fits_of (due_number self) kind }
    {
        let range = RANGES[self as usize];
        range.0 <= kind && kind <= range.1
    }

    // The places of the children of a record of this kind that stands here.
    #[tactic(auto, unfolding(crate::specs::Grammar::row_under_of))]
    pub fn row_under(self, kind: Kind) -> &'static [Place]
        ensures { row_number result.now ≡ row_under_of (due_number self) (kind_number kind) }
    {
        match self {
            Due::Texts => &[Many(Due::Text)],
            Due::Imports => &[Many(Due::Import)],
            Due::NamesAndTypes => &[Many(Due::NameAndType)],
            Due::Variants => &[Many(Due::Variant)],
            Due::Arms => &[Many(Due::Arm)],
            Due::Statements => &[Many(Due::Statement)],
            Due::Types => &[Many(Due::Type)],
            Due::Exprs => &[Many(Due::Expr)],
            Due::StringParts => &[Many(Due::StringPart)],
            Due::Tree
            | Due::Text
            | Due::Path
            | Due::Import
            | Due::NameAndType
            | Due::Variant
            | Due::Field
            | Due::Block
            | Due::RecordFields
            | Due::Arm
            | Due::Operator
            | Due::AssignOperator
            | Due::Literal
            | Due::Declaration
            | Due::Statement
            | Due::Type
            | Due::Expr
            | Due::Pattern
            | Due::StringPart => places(kind),
        }
    }

    // The largest payload byte of a record of this kind that stands here, where it has one.
    pub fn top_byte(self, kind: Kind) -> u8
        ensures { result ≡ top_byte (due_number self) (kind_number kind) }
    {
        if kind == Kind::Return {
            return 2;
        }
        if kind == Kind::Literal {
            return 3;
        }
        if self == Due::AssignOperator { 4 } else { 13 }
    }
}

// A place among the children of a record.
#[derive(Clone, Copy, Debug, PartialEq, Eq)]
pub enum Place {
    One(Due),
    Optional(Due),
    Many(Due),
}

impl Place {
    pub fn due(self) -> Due
        ensures { due_number result ≡ bare (place_number self) }
    {
        match self {
            One(due) => due,
            Optional(due) => due,
            Many(due) => due,
        }
    }

    // Whether no record need stand here.
    pub fn is_optional(self) -> bool
        ensures { result ≡ is_optional (place_number self) }
    {
        matches!(self, Optional(_))
    }
}

// The places of the children of a record, by its kind; those of a list go by where it stands.
#[tactic(auto, unfolding(crate::specs::Grammar::row_of))]
fn places(kind: Kind) -> &'static [Place]
    ensures { row_number result.now ≡ row_of (kind_number kind) }
{
    match kind {
        Kind::Tree => &[Optional(Due::Text), Many(Due::Declaration)],
        Kind::Path => &[One(Due::Text), Many(Due::Text)],
        Kind::FilterMap => &[One(Due::Text), One(Due::NamesAndTypes), One(Due::Block)],
        Kind::Const => &[One(Due::Text), One(Due::Type), One(Due::Expr)],
        Kind::Record => &[
            One(Due::Text),
            Optional(Due::Texts),
            One(Due::NamesAndTypes),
        ],
        Kind::Enum => &[One(Due::Text), Optional(Due::Texts), One(Due::Variants)],
        Kind::Function => &[
            One(Due::Text),
            One(Due::NamesAndTypes),
            Optional(Due::Type),
            One(Due::Block),
        ],
        Kind::Test => &[One(Due::Text), One(Due::Block)],
        Kind::Import => &[Optional(Due::Path), Optional(Due::Imports)],
        Kind::NameAndType => &[One(Due::Text), One(Due::Type)],
        Kind::Variant => &[One(Due::Text), One(Due::Types)],
        Kind::Field => &[One(Due::Text), One(Due::Expr)],
        Kind::Block => &[One(Due::Statements), Optional(Due::Expr)],
        Kind::Let => &[One(Due::Text), Optional(Due::Type), One(Due::Expr)],
        Kind::ImportStmt => &[One(Due::Import)],
        Kind::ExprStmt
        | Kind::Not
        | Kind::Negate
        | Kind::QuestionMark
        | Kind::Parentheses
        | Kind::ExprPart => &[One(Due::Expr)],
        Kind::Option => &[One(Due::Type)],
        Kind::TypePath => &[One(Due::Path), Optional(Due::Types)],
        Kind::RecordType => &[One(Due::NamesAndTypes)],
        Kind::Return => &[Optional(Due::Expr)],
        Kind::LiteralExpr => &[One(Due::Literal)],
        Kind::BlockExpr => &[One(Due::Block)],
        Kind::Match => &[One(Due::Expr), One(Due::Arms)],
        Kind::FunctionCall => &[One(Due::Expr), One(Due::Exprs)],
        Kind::Access => &[One(Due::Expr), One(Due::Text)],
        Kind::PathExpr => &[One(Due::Path)],
        Kind::RecordExpr => &[One(Due::RecordFields)],
        Kind::TypedRecord => &[One(Due::Path), One(Due::RecordFields)],
        Kind::ListExpr => &[One(Due::Exprs)],
        Kind::Assign => &[One(Due::Path), One(Due::Expr)],
        Kind::CompoundAssign => &[One(Due::Path), One(Due::AssignOperator), One(Due::Expr)],
        Kind::BinOp => &[One(Due::Expr), One(Due::Operator), One(Due::Expr)],
        Kind::IfElse => &[One(Due::Expr), One(Due::Block), Optional(Due::Block)],
        Kind::While => &[One(Due::Expr), One(Due::Block)],
        Kind::For => &[One(Due::Text), One(Due::Expr), One(Due::Block)],
        Kind::FString => &[One(Due::StringParts)],
        Kind::RecordFields => &[Many(Due::Field)],
        Kind::Arm => &[One(Due::Pattern), Optional(Due::Expr), One(Due::Expr)],
        Kind::EnumVariant => &[One(Due::Text), Optional(Due::Texts)],
        Kind::Text
        | Kind::List
        | Kind::Never
        | Kind::Unit
        | Kind::Underscore
        | Kind::TextPart
        | Kind::Operator
        | Kind::Literal => &[],
    }
}

// The places that are left when a child has been read at the first.
pub fn after_row(row: &'static [Place]) -> &'static [Place]
    ensures { row_number result.now ≡ after (row_number row.now) }
{
    match row {
        [] => row,
        [Many(_), ..] => row,
        [_, rest @ ..] => rest,
    }
}

// Whether no child is due any more.
pub fn is_over(row: &[Place]) -> bool
    ensures { result ≡ complete (row_number row.now) }
{
    matches!(row, [] | [Many(_), ..])
}

// Whether the bytes from `from` to `to` are well-formed UTF-8.
#[tactic(auto, using(crate::proofs::Texts::checked_ok))]
pub fn is_text(image: &[u8], from: usize, to: usize) -> bool
    requires { (from ≤ to) × (to ≤ length image.now) }
    ensures { result ≡ well_formed (part from to image.now) }
{
    text::utf8::check(&image[from..to]).is_ok()
}

// Whether what follows the span, from `from` to `stop`, starts with a payload right for a record of this kind that stands
// there.
#[tactic(auto, unfolding(crate::specs::Grammar::payload_fits))]
pub(crate) fn payload_fits(image: &[u8], due: Due, kind: Kind, from: usize, stop: usize) -> bool
    requires { (from ≤ stop) × (stop ≤ length image.now) × (0 < length image.now) }
    ensures { result ≡ payload_fits image.now (width_bytes image.now) (due_number due) (kind_number kind) from stop }
{
    if kind.is_text() {
        let width = width_bytes(image);
        return width <= stop - from && is_text(image, from + width, stop);
    }
    if kind.has_byte() {
        return from < stop && image[from] <= due.top_byte(kind);
    }
    true
}

// Where the payload ends and the children start.
#[tactic(auto, unfolding(crate::specs::Grammar::first_child))]
pub fn first_child(kind: Kind, from: usize, stop: usize) -> usize
    requires { from + 1 < 2 ^ 64 }
    ensures { result ≡ first_child (kind_number kind) from stop }
{
    if kind.is_text() {
        return stop;
    }
    if kind.has_byte() { from + 1 } else { from }
}
