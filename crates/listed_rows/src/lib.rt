// Rows that a rendering state lists, as numbers, and refusal 23 of them.
#![tactic(auto)]

pub mod closing;
pub mod number;
pub mod those;
