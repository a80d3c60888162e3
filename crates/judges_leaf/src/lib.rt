// A plain leaf: a child in its turn that holds text only, has no attributes, holds nothing but one run of text or nothing, and is a number in range where
// it must be one. It needs no judge of its own.
#![tactic(auto)]

ghost use Rattle.std.specs.Prelude.{◌≡◌, cond, not, ◌&&◌, ◌||◌, ◌≤◌};
ghost use Rattle.cdi.specs.Numbers.{number};
ghost use Rattle.rules_judge.specs.declared.Said.TheVariants.{Silent};
ghost use Rattle.rules_judge.specs.Judging.{said_by, is_value};
ghost use Rattle.rules_judge.specs.Parts.{is_numeric};
ghost use Rattle.judges_state.specs.Decoded.{said_of, judge_of, Placed};
ghost use Rattle.judges_state.specs.Steps.{leaf_by};

use judges_content::{Spoken, told};
use judges_limits::{bounded, is_sound};
use judges_state::Judge;
use judges_tables::is_numeric;

// What a leaf says with this text: nothing, where it need not be a number. `numeric` tells that it stands in an int.
pub fn leaf_said(numeric: bool, child: usize, value: &[u8]) -> Spoken
    ensures { said_of result.said result.magnitude ≡ cond (numeric && is_numeric child) (said_by (number value.now)) Silent }
{
    if numeric & is_numeric(child) {
        return told(value);
    }
    Spoken {
        said: 0,
        magnitude: 0,
    }
}

// Is the leaf a number in range, where it must be one?
pub fn is_leaf_good(numeric: bool, child: usize, said: usize) -> bool
    ensures { result ≡ (not (numeric && is_numeric child) || is_value (said_of said 0)) }
{
    !(numeric & is_numeric(child)) | (3 <= said)
}

// The judge behind the leaf of this number and entry at this place, with what it has said.
pub fn with_leaf(
    j: Judge,
    at: usize,
    child: usize,
    entry: usize,
    said: usize,
    magnitude: u64,
) -> Judge
    requires { (at ≤ 65535) × Placed j }
    ensures result_value { judge_of result ≡ leaf_by (judge_of j) at child entry (said_of said magnitude) }
    ensures places { Placed result }
{
    let sound = is_sound(j.sound, child, true, true, said);
    let mut r = j;
    r.said = 1;
    r.last = entry;
    r.one = j.one | (entry == 1);
    r.two = j.two | (entry == 2);
    r.sound = sound;
    bounded(r, at, child, said, magnitude)
}
