// Theory only: what is proved of the stops of renderings.
#![tactic(auto)]
