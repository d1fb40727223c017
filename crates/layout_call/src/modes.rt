// What closing does with the comments that wait.
// kept: numbers and no enum: C lends any number as a mode; refusal 12 turns down those over 1, and only `close_document` asks which it is.

// They stay in the list, as in the Rust.
pub const OLD_MODE: usize = 0;

// They are placed before the final `Line`.
pub const NEW_MODE: usize = 1;
