// The document as rows.
#![tactic(auto)]

pub mod kinds;
pub mod limits;
pub mod origins;
pub mod places;
pub mod store;
pub mod texts;
pub mod units;
pub mod width;
pub mod words;
pub mod wrap;
