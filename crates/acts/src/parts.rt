// Nodes with parts. A node's row is opened, its parts are laid, and then `close` says which row comes after its last descendant.
ghost use Rattle.std.specs.Prelude.{◌≡◌};

use crate::State;
use crate::store::Row;
use crate::words::Word;
use rows::kinds::Kind;
use rows::places::{AFTER, PLACES, SECOND};
use rows::store::put;

// `Group` takes the next number, `Call` the next two.
#[derive(Clone, Copy, Debug, PartialEq, Eq)]
pub enum Branch {
    Group,
    Indent,
    IndentNext,
    Call,
}

impl State<'_> {
    ghost use Rattle.rows.specs.Places.{SECOND, AFTER};
    ghost use Rattle.rows.specs.Node.{ascii, if_wrap};
    ghost use Rattle.rows.specs.Words.{word};
    ghost use Rattle.acts.specs.Act.{push};
    ghost use Rattle.acts.specs.Laid.{CanOpen, Room};
    ghost use Rattle.acts.specs.Does.{Does, Opens, Marks, taken_by};
    ghost use Rattle.acts.specs.Spelling.{spelling};

    // Opens a node, and returns its row.
    #[inline(always)]
    pub fn open(&mut self, node: Branch) -> u32
        requires { CanOpen (taken_by node) self.old.cursor }
        ensures { Opens node self.old self.new result }
    {
        let opened = self.cursor.row;
        let number = self.cursor.number;
        match node {
            Branch::Group => {
                self.push_row(Row {
                    kind: Kind::Group,
                    number,
                    ..Row::BLANK
                });
                self.cursor.number = number + 1;
            }
            Branch::Indent => self.push_row(Row {
                kind: Kind::Indent,
                ..Row::BLANK
            }),
            Branch::IndentNext => self.push_row(Row {
                kind: Kind::IndentNext,
                ..Row::BLANK
            }),
            Branch::Call => {
                self.push_row(Row {
                    kind: Kind::Call,
                    number,
                    second_number: number + 1,
                    ..Row::BLANK
                });
                self.cursor.number = number + 2;
            }
        }
        opened
    }

    // Says in a row where its second part starts.
    pub fn set_second(&mut self, row: u32, second: u32)
        ensures { Marks SECOND row second self.old self.new }
    {
        put(self.store, PLACES * (row as usize) + SECOND, second);
    }

    // Says in a row that the row at the cursor comes after its last descendant.
    pub fn close(&mut self, row: u32)
        ensures { Marks AFTER row self.old.cursor.row self.old self.new }
    {
        put(self.store, PLACES * (row as usize) + AFTER, self.cursor.row);
    }

    // `Node::IfWrap` of `separated`: the word where the group with the number wraps, and nothing where it doesn't.
    pub fn if_wrap(&mut self, number: u32, w: Word)
        requires { Room (push (if_wrap number (ascii (word (spelling w))) (ascii (word "")))) self.old.cursor }
        ensures { Does (push (if_wrap number (ascii (word (spelling w))) (ascii (word "")))) self.old self.new }
    {
        let opened = self.cursor.row;
        self.push_row(Row {
            kind: Kind::IfWrap,
            number,
            ..Row::BLANK
        });
        self.word(w);
        let second = self.cursor.row;
        self.word(Word::Empty);
        self.set_second(opened, second);
        self.close(opened);
    }
}
