// Min and max: what they have said, and whether an int's bounds are still sound.
#![tactic(auto)]

ghost use Rattle.std.specs.Prelude.{◌≡◌, not, ◌&&◌, ◌||◌, ◌≤◌, leb};
ghost use Rattle.rules_judge.specs.Parts.{is_limit};
ghost use Rattle.judges_state.specs.Decoded.{said_of, judge_of, Placed};
ghost use Rattle.judges_state.specs.Steps.{bounded_by};

use judges_state::Judge;

// With what a min at this place has said, where it is the first that says a number.
fn with_low(j: Judge, at: usize, said: usize, magnitude: u64) -> Judge
    requires { (at ≤ 65535) × Placed j }
    ensures result_value { judge_of result ≡ bounded_by (judge_of j) at 19 (said_of said magnitude) }
    ensures places { Placed result }
{
    if j.has_low | (said < 3) {
        return j;
    }
    let mut r = j;
    r.has_low = true;
    r.low_negative = said == 4;
    r.low = at;
    r.smallest = magnitude;
    r
}

// With what a max at this place has said, where it is the first that says a number.
fn with_high(j: Judge, at: usize, said: usize, magnitude: u64) -> Judge
    requires { (at ≤ 65535) × Placed j }
    ensures result_value { judge_of result ≡ bounded_by (judge_of j) at 20 (said_of said magnitude) }
    ensures places { Placed result }
{
    if j.has_high | (said < 3) {
        return j;
    }
    let mut r = j;
    r.has_high = true;
    r.high_negative = said == 4;
    r.high = at;
    r.largest = magnitude;
    r
}

// With what a child at this place has said, where it is the first min or max that says a number.
pub fn bounded(j: Judge, at: usize, child: usize, said: usize, magnitude: u64) -> Judge
    requires { (at ≤ 65535) × Placed j }
    ensures result_value { judge_of result ≡ bounded_by (judge_of j) at child (said_of said magnitude) }
    ensures places { Placed result }
{
    if child == 19 {
        return with_low(j, at, said, magnitude);
    }
    if child == 20 {
        return with_high(j, at, said, magnitude);
    }
    j
}

// Are the bounds still sound behind this child: a min or max stands in its turn, has no attributes, and is a number in range?
pub fn is_sound(sound: bool, child: usize, turn: bool, bare: bool, said: usize) -> bool
    ensures { result ≡ (sound && (not (is_limit child) || (turn && (bare && leb 3 said)))) }
{
    sound & (!((child == 19) | (child == 20)) | (turn & (bare & (3 <= said))))
}
