// What a call answers where it can refuse: `Ok` with what it accepts, or `Err` with the refusal.
#![tactic(auto)]

// Why a call refuses: the number of the cause and its place.
#[derive(Clone, Copy, Debug, PartialEq, Eq)]
pub struct Refusal {
    pub number: usize,
    pub place: usize,
}
