// The stored answer to a frame; and what a run gave against it.
use crate::hash::{of_bytes, of_numbers};
use crate::line::line_found;
use file::Text;
use rows::places::PLACES;
use rows::units::Bytes;
use stored_answers::difference::{Difference, Told, bytes_found, unless};
use stored_answers::numbers::Reader;

// How many bytes a stop has.
const STOP: usize = 16;

// The refusal number and the place; and what is stored of a frame that is accepted.
#[derive(Clone, Copy)]
pub(crate) struct Stored<'a> {
    pub told: Told,
    pub accepted: Option<Accepted<'a>>,
}

// How many rows there are, how many group numbers and comments left; the hashes of rows and marks; how many declarations; and where the states
// at the stops and the text with its length are stored.
#[derive(Clone, Copy)]
pub(crate) struct Accepted<'a> {
    rows: usize,
    rows_hash: usize,
    numbers: usize,
    marks_hash: usize,
    left: usize,
    pub declarations: usize,
    pub stops: Reader<'a>,
    text: Reader<'a>,
}

fn read_accepted<'a>(answers: &mut Reader<'a>) -> Accepted<'a> {
    let rows = answers.long();
    let rows_hash = answers.long();
    let numbers = answers.long();
    let marks_hash = answers.long();
    let left = answers.long();
    let declarations = answers.short();
    let stops = *answers;
    answers.skip(STOP * (declarations + 1));
    let text = *answers;
    let size = answers.long();
    answers.skip(size);
    Accepted {
        rows,
        rows_hash,
        numbers,
        marks_hash,
        left,
        declarations,
        stops,
        text,
    }
}

// The answer that comes next.
pub(crate) fn read_stored<'a>(answers: &mut Reader<'a>) -> Stored<'a> {
    let told = Told {
        number: answers.byte(),
        place: answers.eight(),
    };
    Stored {
        told,
        accepted: if told.number == 0 {
            Some(read_accepted(answers))
        } else {
            None
        },
    }
}

impl Stored<'_> {
    // What the program writes, the first n bytes of its output: the text, or the line with number and place.
    pub(crate) fn reply_found(&self, out: &[u8], n: usize) -> Result<(), Difference> {
        let Some(reply) = out.get(..n) else {
            return Err(Difference::Reply);
        };
        match self.accepted {
            Some(accepted) => accepted.bytes_found(reply, Difference::Reply),
            None => line_found(reply, self.told.number, self.told.place),
        }
    }
}

impl Accepted<'_> {
    fn bytes_found(&self, bytes: &[u8], what: Difference) -> Result<(), Difference> {
        let mut text = self.text;
        bytes_found(bytes, &mut text, what)
    }

    fn text_found(&self, out: &[u8], bytes: Bytes) -> Result<(), Difference> {
        let Some(text) = out.get(..bytes.0) else {
            return Err(Difference::Text);
        };
        self.bytes_found(text, Difference::Text)
    }

    // What a run told of its output.
    fn amounts_found(&self, text: Text) -> Result<(), Difference> {
        unless(self.rows == text.rows, Difference::Rows)?;
        unless(self.numbers == text.numbers, Difference::Marks)?;
        unless(self.left == text.left, Difference::Count)
    }

    // What a whole run told, and its text.
    pub(crate) fn told_found(&self, out: &[u8], text: Text) -> Result<(), Difference> {
        self.amounts_found(text)?;
        self.text_found(out, text.bytes)
    }

    fn rows_found(&self, store: &[u32], rows: usize) -> Result<(), Difference> {
        if store.len() / PLACES < rows {
            return Err(Difference::Rows);
        }
        let hash = of_numbers(&store[..rows * PLACES]) as usize;
        unless(
            self.rows == rows && self.rows_hash == hash,
            Difference::Rows,
        )
    }

    fn marks_found(&self, marks: &[u8], numbers: usize) -> Result<(), Difference> {
        let Some(used) = marks.get(..numbers) else {
            return Err(Difference::Marks);
        };
        let hash = of_bytes(used) as usize;
        unless(
            self.numbers == numbers && self.marks_hash == hash,
            Difference::Marks,
        )
    }

    // What a run left in the buffers.
    pub(crate) fn output_found(
        &self,
        store: &[u32],
        marks: &[u8],
        out: &[u8],
        text: Text,
    ) -> Result<(), Difference> {
        self.rows_found(store, text.rows)?;
        self.marks_found(marks, text.numbers)?;
        unless(self.left == text.left, Difference::Count)?;
        self.text_found(out, text.bytes)
    }
}
