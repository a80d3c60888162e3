// Frames `I`, `E`, `S` and `G` behind their window: a value written, and a value read.
#![tactic(auto)]

pub mod reads; // answers to reading
pub mod writes; // answers to writing
