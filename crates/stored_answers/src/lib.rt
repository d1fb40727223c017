// Stored answers, as programs that replay them read and compare them.
//
// Reading is total. Past the end of the answers each byte reads as 0, and a place that is out of reach is the last number there is, so that a
// reader finds at the end of a case that the answers were cut off.
#![tactic(auto)]

pub mod compare;
pub mod difference;
pub mod group;
pub mod numbers;
pub mod parts;
pub mod report;
