// No code: what is to come from a place on, as pieces and as a tree, and its laws.
#![tactic(auto)]
