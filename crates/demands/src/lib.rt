// Theory only: the three demands of the entries by what they promise, and all that is claimed.
#![tactic(auto)]
