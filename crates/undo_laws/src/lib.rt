// The laws of sessions with undo stand in proofs/. This crate has no code.
#![tactic(auto)]
