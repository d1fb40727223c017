// Writing rows. A place past the end of the store is dropped: a run over an empty store still counts the rows.
ghost use Rattle.std.specs.Prelude.{◌≡◌, ◌+◌, ◌*◌, ◌<◌, ◌^◌, length};
ghost use Rattle.std.proofs.lemmas.List.Edits.{sets};
ghost use Rattle.rows.specs.Places.{WIDTH, PLACES};
ghost use Rattle.rows.specs.Kinds.{number_of};
ghost use Rattle.acts.specs.Laid.{text_of, top, cells_of};

use crate::State;
use rows::kinds::Kind;
use rows::origins::Origin;
use rows::places::{PLACES, WIDTH};
use rows::store::put;

// What a text is a part of, where it starts there, and how many bytes it has.
#[derive(Clone, Copy)]
pub struct Text {
    pub origin: Origin,
    pub start: u32,
    pub size: u32,
}

// A row as it is written at first: the place of its second part is 0, and set later where it has one.
#[derive(Clone, Copy)]
pub struct Row {
    pub kind: Kind,
    pub number: u32,
    pub second_number: u32,
    pub after: u32,
    pub text: Text,
    pub width: u32,
}

impl Row {
    // What a row holds where nothing else is said.
    pub(crate) const BLANK: Row = Row {
        kind: Kind::Group,
        number: 0,
        second_number: 0,
        after: 0,
        text: Text {
            origin: Origin::Source,
            start: 0,
            size: 0,
        },
        width: 0,
    };
}

// The nine numbers of a row.
#[inline(always)]
fn cells(r: &Row) -> [u32; 9]
    ensures { result ≡ cells_of r.now }
{
    [
        r.kind.number(),
        r.number,
        r.second_number,
        0,
        r.after,
        r.text.origin.number(),
        r.text.start,
        r.text.size,
        r.width,
    ]
}

// Writes those of the nine numbers that the store has room for.
#[tactic(auto, using(laws::proofs::Stores::sets_append))]
fn put_cells(store: &mut [u32], i: usize, cells: &[u32; 9])
    requires { i + WIDTH < 2 ^ 64 }
    ensures { store.new ≡ sets store.old i cells.now }
{
    // kept: by the number: the store may end at any of the places, so that each is tested; `enumerate` would give both a number and a cell.
    for k in 0..PLACES {
        put(store, i + k, cells[k]);
    }
}

// Writes the nine places of a row.
fn write_row(store: &mut [u32], row: u32, r: &Row)
    ensures { store.new ≡ sets store.old (PLACES * row) (cells_of r.now) }
{
    let i = PLACES * (row as usize);
    let cells = cells(r);
    if i + WIDTH < store.len() {
        store[i..i + PLACES].copy_from_slice(&cells);
        return;
    }
    put_cells(store, i, &cells);
}

impl State<'_> {
    ghost use Rattle.acts.specs.Does.{Pushed};

    // Writes the row at the cursor as one without parts, and goes past it.
    #[inline(always)]
    pub(crate) fn push_row(&mut self, r: Row)
        requires { self.old.cursor.row < top }
        ensures { Pushed (number_of r.kind) r.number r.second_number (text_of r.text) r.width self.old self.new }
    {
        let after = self.cursor.row + 1;
        write_row(self.store, self.cursor.row, &Row { after, ..r });
        self.cursor.row = after;
    }
}
