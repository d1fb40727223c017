// The old marks that a dry run puts aside and back.
ghost use Rattle.std.specs.Prelude.{◌≡◌, ◌*◌, ◌-◌, ◌≤◌, length, get_or};
ghost use Rattle.rows.specs.Places.{PLACES, RowIn};
ghost use Rattle.marks.specs.Marks.{clear, numbers_of, held, row_aside, put_aside, row_back, put_back};

use crate::numbers::{Numbers, numbers_of};
use rows::places::{PLACES, WIDTH};
use rows::store::put;

// Reads the mark of a number, and clears it if the number is not in use.
fn take_mark(marks: &mut [u8], in_use: usize, number: usize) -> u8
    ensures { (result ≡ get_or marks.old number 0) × (marks.new ≡ clear in_use number marks.old) }
{
    if marks.len() <= number {
        return 0;
    }
    let old = marks[number];
    if in_use <= number {
        marks[number] = 0;
    }
    old
}

// Puts the old marks of a row's numbers aside in its width place, which is the one place of a `Group` or `Call` that nothing else is in.
// kept: a choice by the row's numbers, which are read from the row, and not among steps that a caller has.
fn row_aside(store: &mut [u32], marks: &mut [u8], in_use: usize, row: usize)
    requires { RowIn store.old row }
    ensures { held store.new marks.new ≡ row_aside in_use (numbers_of store.old row) (held store.old marks.old) row }
{
    match numbers_of(store, row) {
        Numbers::Two(number, second) => {
            let one = take_mark(marks, in_use, number);
            let two = take_mark(marks, in_use, second);
            store[row * PLACES + WIDTH] = u32::from_le_bytes([one, two, 0, 0]);
        }
        Numbers::One(number) => {
            store[row * PLACES + WIDTH] = u32::from(take_mark(marks, in_use, number));
        }
        Numbers::None => {}
    }
}

// Puts the old marks of a row's numbers back, and clears its width place.
fn row_back(store: &mut [u32], marks: &mut [u8], row: usize)
    requires { RowIn store.old row }
    ensures { held store.new marks.new ≡ row_back (numbers_of store.old row) (held store.old marks.old) row }
{
    let [one, two, _, _] = store[row * PLACES + WIDTH].to_le_bytes();
    match numbers_of(store, row) {
        Numbers::Two(number, second) => {
            put(marks, second, two);
            put(marks, number, one);
            store[row * PLACES + WIDTH] = 0;
        }
        Numbers::One(number) => {
            put(marks, number, one);
            store[row * PLACES + WIDTH] = 0;
        }
        Numbers::None => {}
    }
}

// Puts the old marks of the rows' numbers aside, before a dry run.
pub fn put_aside(store: &mut [u32], marks: &mut [u8], in_use: usize, from: usize, stop: usize)
    requires { stop * PLACES ≤ length store.old }
    ensures { held store.new marks.new ≡ put_aside (stop - from) in_use (held store.old marks.old) from }
{
    for row in from..stop {
        row_aside(store, marks, in_use, row);
    }
}

// Puts the old marks back, after a dry run.
pub fn put_back(store: &mut [u32], marks: &mut [u8], from: usize, stop: usize)
    requires { (from ≤ stop) × (stop * PLACES ≤ length store.old) }
    ensures { held store.new marks.new ≡ put_back (stop - from) (held store.old marks.old) from }
{
    for row in (from..stop).rev() {
        row_back(store, marks, row);
    }
}
