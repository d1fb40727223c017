// Nodes without parts.
#![tactic(auto, unfolding(rows::specs::Rows::rows_of, rows::specs::Words::word))]

ghost use Rattle.std.specs.Prelude.{◌≡◌, ◌+◌, ℕ};
ghost use Rattle.rows.specs.Rows.{rows_of};
ghost use Rattle.acts.specs.Laid.{cells_at};
ghost use Rattle.acts.specs.Does.{Small, node_of};

use crate::State;
use crate::store::{Row, Text};
use crate::words::{Word, place_of};
use rows::kinds::Kind;
use rows::origins::Origin;
use rows::units::{Bytes, Columns};

#[derive(Clone, Copy, Debug, PartialEq, Eq)]
pub enum Leaf {
    WrapParent,
    // A comment of the source.
    Comment {
        start: u32,
        size: Bytes,
    },
    // A text of the image, with its width.
    Str {
        start: u32,
        size: Bytes,
        width: Columns,
    },
    // A part of the source.
    Ascii {
        start: u32,
        size: Bytes,
    },
    // `Node::Ascii` of a word.
    Word(Word),
    Line,
    EmptyLine,
    LineOrSpace,
}

// The row of a leaf, as it is written at first.
#[inline(always)]
fn row_of(leaf: Leaf) -> Row
    requires { Small leaf }
    ensures { (r : ℕ) → rows_of (node_of leaf) r ≡ cells_at (r + 1) result }
{
    match leaf {
        Leaf::WrapParent => Row {
            kind: Kind::WrapParent,
            ..Row::BLANK
        },
        Leaf::Comment { start, size } => Row {
            kind: Kind::Comment,
            text: Text {
                origin: Origin::Source,
                start,
                size: size.0 as u32,
            },
            ..Row::BLANK
        },
        Leaf::Str { start, size, width } => Row {
            kind: Kind::Str,
            text: Text {
                origin: Origin::Image,
                start,
                size: size.0 as u32,
            },
            width: width.0 as u32,
            ..Row::BLANK
        },
        Leaf::Ascii { start, size } => Row {
            kind: Kind::Ascii,
            text: Text {
                origin: Origin::Source,
                start,
                size: size.0 as u32,
            },
            ..Row::BLANK
        },
        // kept: field by field: a word's place has no origin, and here it gets one; a conversion would have this as its one user.
        Leaf::Word(w) => {
            let place = place_of(w);
            let text = Text {
                origin: Origin::Words,
                start: place.start,
                size: place.size,
            };
            Row {
                kind: Kind::Ascii,
                text,
                ..Row::BLANK
            }
        }
        Leaf::Line => Row {
            kind: Kind::Line,
            ..Row::BLANK
        },
        Leaf::EmptyLine => Row {
            kind: Kind::EmptyLine,
            ..Row::BLANK
        },
        Leaf::LineOrSpace => Row {
            kind: Kind::LineOrSpace,
            ..Row::BLANK
        },
    }
}

impl State<'_> {
    ghost use Rattle.acts.specs.Act.{push, says};
    ghost use Rattle.acts.specs.Laid.{Room};
    ghost use Rattle.acts.specs.Does.{Does, Small, node_of};
    ghost use Rattle.acts.specs.Spelling.{spelling};

    #[inline(always)]
    pub fn push(&mut self, leaf: Leaf)
        requires room { Room (push (node_of leaf)) self.old.cursor }
        requires small { Small leaf }
        ensures { Does (push (node_of leaf)) self.old self.new }
    {
        self.push_row(row_of(leaf));
    }

    // `Node::Ascii` of a word.
    pub fn word(&mut self, w: Word)
        requires { Room (says (spelling w)) self.old.cursor }
        ensures { Does (says (spelling w)) self.old self.new }
    {
        self.push(Leaf::Word(w));
    }
}
