// No code: the laws of the judge. Folded over a tree, its least fault is the least of stages 8 to 10.
#![tactic(auto)]
