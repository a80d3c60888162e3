// No code: the steps of the judge by numbers of elements are its steps by their names.
#![tactic(auto)]
