// Rendering of rows.
#![tactic(auto)]

mod close;
mod columns;
pub mod frames;
mod leaf;
pub mod machine;
mod marks;
pub mod measure;
mod open;
pub mod output;
pub mod run;
pub mod writing;
