// Facts about the layout rules: no code.
#![tactic(auto)]
