// Request 8: widths by a rule, put into rows.
#![tactic(auto)]

pub mod lay;
mod sum;
pub mod turn;
