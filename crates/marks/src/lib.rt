// The marks of rows.
#![tactic(auto)]

pub mod count;
pub mod keep;
mod numbers;
