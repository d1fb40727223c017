// `State` of fmt.rs: the steps of layout, what they write to the store of rows, and how the cursor moves.
#![tactic(auto)]

pub mod leaves;
pub mod parts;
mod store;
pub mod words;

ghost use Rattle.std.specs.Prelude.{◌<◌};

// The position in the source, how many comments are placed, the next row, and the next group number. In this order what rarely changes is
// copied at once.
#[derive(Clone, Copy, Debug, PartialEq, Eq)]
pub struct Cursor {
    pub pos: u32,
    pub placed: u32,
    pub row: u32,
    pub number: u32,
}

// What layout changes: the store of rows, and the cursor.
#[derive(Drop)]
pub struct State<'a> {
    pub store: &'a mut [u32],
    pub cursor: Cursor,
}

impl State<'_> {
    ghost use Rattle.acts.specs.Act.{move_to, pop};
    ghost use Rattle.acts.specs.Laid.{top};
    ghost use Rattle.acts.specs.Does.{Does};

    // `*self.pos = pos`
    pub fn move_to(&mut self, pos: u32)
        ensures { Does (move_to pos) self.old self.new }
    {
        self.cursor.pos = pos;
    }

    // `comments.pop_front`
    pub fn pop_front(&mut self)
        requires { self.old.cursor.placed < top }
        ensures { Does pop self.old self.new }
    {
        self.cursor.placed += 1;
    }
}
