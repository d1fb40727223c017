// The rules that a text is measured by.
pub const SUPPLIED: usize = 1;

pub const UNICODE_15_1: usize = 2;

pub const UNICODE_16_0: usize = 3;
