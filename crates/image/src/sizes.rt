// How many bytes the parts of an image have.
// before its body: version and length
pub const HEADER: usize = 5;

// before its comments: the header and their number
pub const PAIRS: usize = 7;

// a comment
pub const PAIR: usize = 8;

// a record's length
pub const LENGTH: usize = 4;

// a record before its payload: length, kind and span
pub const HEAD: usize = 13;

// a text's width
pub const WIDTH: usize = 2;
