// What is known of an element while its content is read, as plain numbers: nothing of it is an enum, and its bools stand side by side.
#![tactic(auto)]

ghost use Rattle.std.specs.Prelude.{◌≡◌, None, false};
ghost use Rattle.rules_judge.specs.Judging.{fresh as fresh_judge};
ghost use Rattle.judges_state.specs.Decoded.{least_in, judge_of, Placed};

use keys::NOTHING;

// The least fault so far is a key. `row` is the element's number, 0 for the text itself, FOREIGN for an element whose content isn't judged; `last`
// is the last entry of the row that a child has had, counted from 1. `said` is what the content has said as a number: 0 for nothing yet, 1 for no
// number, 2 for one out of range, 3 for one of that magnitude, 4 for a negative one. `low` and `high` are the places of an int's bounds, `smallest`
// and `largest` their magnitudes.
#[derive(Clone, Copy)]
pub struct Judge {
    pub least: usize,
    pub row: usize,
    pub last: usize,
    pub said: usize,
    pub magnitude: u64,
    pub low: usize,
    pub smallest: u64,
    pub high: usize,
    pub largest: u64,
    pub numeric: bool,
    pub one: bool,
    pub two: bool,
    pub sound: bool,
    pub has_low: bool,
    pub low_negative: bool,
    pub has_high: bool,
    pub high_negative: bool,
}

pub const FOREIGN: usize = 24;

// Nothing of the content is read yet.
pub fn fresh(least: usize, row: usize, numeric: bool) -> Judge
    ensures result_value { judge_of result ≡ fresh_judge (least_in least) row numeric }
    ensures places { Placed result }
{
    Judge {
        least,
        row,
        last: 0,
        said: 0,
        magnitude: 0,
        low: 0,
        smallest: 0,
        high: 0,
        largest: 0,
        numeric,
        one: false,
        two: false,
        sound: true,
        has_low: false,
        low_negative: false,
        has_high: false,
        high_negative: false,
    }
}

// The judge of the text itself, of which nothing is read yet.
pub fn start() -> Judge
    ensures result_value { judge_of result ≡ fresh_judge None 0 false }
    ensures places { Placed result }
{
    fresh(NOTHING, 0, false)
}
