// No code: a window stored in blocks of 512 bytes and read back, as definitions, with worked cases.
#![tactic(auto)]
