// Module 1: well-formed UTF-8, White_Space, trimming and newline counts.
#![tactic(auto)]

pub mod newlines;
pub mod space;
pub mod utf8;
