// Theory only: the syntax tree that the records of an image are.
#![tactic(auto)]
