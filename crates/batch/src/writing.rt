// The texts, one after the other, and a row of the table for each file.
ghost use Rattle.std.specs.Prelude.{◌≡◌, ◌+◌, ◌≤◌, length};
ghost use Rattle.std.proofs.lemmas.List.Edits.{sets};
ghost use Rattle.file.specs.Whole.{to_choice};
ghost use Rattle.batch.specs.Whole.{saved, text_of, cells, Small, Saved, Room, Written};

use crate::frames::{Frame, Frames};
use file::{CELLS as ROW_CELLS, FileChoice, MARKS, format_lent};

// Three numbers a file.
pub(crate) const CELLS: usize = 3;

// The refusal's number or 0, its place or 0, the bytes of the text.
// kept: three numbers and no Result: C reads them so from the table that it lends, number 0 where there is a text.
#[derive(Clone, Copy)]
pub(crate) struct Row {
    number: u8,
    place: usize,
    bytes: usize,
}

// Writes the text of a frame's file, where it has room; the answer is the file's row.
#[tactic(auto, using(crate::proofs::Steps::saved_text))]
fn write_text(
    frame: &Frame,
    store: &mut [u32; ROW_CELLS],
    used: &mut [u8; MARKS],
    out: &mut [u8],
    choice: FileChoice,
) -> Row
    requires { length (text_of (to_choice choice) (saved frame.now)) ≤ length out.old }
    ensures { Saved (to_choice choice) (saved frame.now) out.old result out.new }
{
    match format_lent(frame.source, frame.image, store, used, out, choice) {
        Ok(text) => Row {
            number: 0,
            place: 0,
            bytes: text.bytes.0,
        },
        Err(refused) => Row {
            number: refused.number(),
            place: refused.place,
            bytes: 0,
        },
    }
}

// Writes a row into the table, from place `at` on.
fn write_row(table: &mut [u32], at: usize, row: Row)
    requires { (at + CELLS ≤ length table.old) × Small row }
    ensures { table.new ≡ sets table.old at (cells row) }
{
    let cells = [u32::from(row.number), row.place as u32, row.bytes as u32];
    table[at..at + CELLS].copy_from_slice(&cells);
}

// Writes the rows and the texts of all files.
#[tactic(auto, using(crate::proofs::Texts::putting_none, crate::proofs::Texts::frame_row))]
pub(crate) fn write_saves(
    frames: &[u8],
    store: &mut [u32; ROW_CELLS],
    used: &mut [u8; MARKS],
    table: &mut [u32],
    out: &mut [u8],
    choice: FileChoice,
)
    requires { Room (to_choice choice) frames.now table.old out.old }
    ensures { Written (to_choice choice) frames.now table.old out.old table.new out.new }
{
    // kept: two numbers that go on beside the loop: a value of table, output and both would have this loop as its one user, and be taken apart
    // here.
    let mut cell = 0;
    let mut text = 0;
    for frame in Frames::new(frames) {
        let row = write_text(&frame, store, used, &mut out[text..], choice);
        write_row(table, cell, row);
        text += row.bytes;
        cell += CELLS;
    }
}
