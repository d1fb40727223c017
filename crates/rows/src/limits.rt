// The limits of rows: "rendered rows 2,097,152 and 256 deep", and "next number over 1,048,576".
pub const MAX_ROWS: usize = 2097152;

pub const MAX_DEPTH: usize = 256;

pub const MAX_NUMBER: usize = 1048576;
