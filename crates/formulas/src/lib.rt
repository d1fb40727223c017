// Theory only: all small formulas, their order, and the list of those of a size.
#![tactic(auto)]
