// The steps that an image is written by: rules and laws, no code.
#![tactic(auto)]
