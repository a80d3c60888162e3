// The definitions of document 01 stand in specs/, their laws in proofs/. This crate has no code.
#![tactic(auto)]
