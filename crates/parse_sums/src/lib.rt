// No code: what is summed up along the way, as a type: the judge of stages 8 to 10, the tally of the walk and the root's place; its moves by names, and their laws.
#![tactic(auto)]

use rules_judge::Judge;
use tally_tag::Tally;

// The root's place is 0 as long as it hasn't begun.
#[derive(Clone, Copy)]
pub struct State {
    pub judge: Judge,
    pub tally: Tally,
    pub root: usize,
}
