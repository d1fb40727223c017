// Laws of Booleans, numbers, options and lists that several crates go by. Nothing runs here.
#![tactic(auto)]
