// What a call hands out, by its answer, stands in specs/, its laws in proofs/. This crate has no code.
#![tactic(auto)]
