// No code: the promises, of any answers that the contracts of the public functions allow.
#![tactic(auto)]
