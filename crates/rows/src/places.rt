// kept: offsets in memory that C lends, nine numbers of 32 bits a row.
// The places of a row: kind, number, second number, first row of the second part, row after the last descendant, text origin, text start,
// text length, width.
pub const KIND: usize = 0;

pub const NUMBER: usize = 1;

pub const SECOND_NUMBER: usize = 2;

pub const SECOND: usize = 3;

pub const AFTER: usize = 4;

pub const ORIGIN: usize = 5;

pub const START: usize = 6;

pub const SIZE: usize = 7;

pub const WIDTH: usize = 8;

// How many they are.
pub const PLACES: usize = 9;
