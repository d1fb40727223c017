// Theory only: whole runs by the rules, and what is proved of them.
#![tactic(auto)]
