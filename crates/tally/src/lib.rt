// No code: the laws of the tally. Folded over a tree without faults, extents, records and counts are those of the definitions.
#![tactic(auto)]
