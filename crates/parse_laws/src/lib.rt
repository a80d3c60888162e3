// No code: what reading elements and their content gives, against the pieces and the tree, and its laws.
#![tactic(auto)]
