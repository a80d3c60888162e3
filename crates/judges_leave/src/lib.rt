// A child that is left: what is missing in it, what it has said, an int's bounds, and the judge behind it.
#![tactic(auto)]

ghost use Rattle.std.specs.Prelude.{◌≡◌, ◌≤◌, max};
ghost use Rattle.rules_judge.specs.Judging.{blamed, said_faults};
ghost use Rattle.judges_state.specs.Decoded.{least_in, said_of, judge_of, Placed};
ghost use Rattle.judges_state.specs.Steps.{content_faults, left_by};

use judges_bounds::bound_blame;
use judges_limits::{bounded, is_sound};
use judges_state::Judge;
use judges_tables::{is_in_turn, is_numeric};
use keys::{blame, blame_unless};

fn larger(a: usize, b: usize) -> usize
    ensures { result ≡ max a b }
{
    if a < b {
        return b;
    }
    a
}

// The least with the fault of what an element has said, where it must be a number: 9 or 10 at the element's place.
fn said_blame(least: usize, said: usize, at: usize) -> usize
    requires { at ≤ 65535 }
    ensures { least_in result ≡ blamed (least_in least) (said_faults at (said_of said 0)) }
{
    if said < 2 {
        return blame(least, 9, at);
    }
    if said == 2 {
        return blame(least, 10, at);
    }
    least
}

// The least with the faults that are known behind the content of a child at this place: a relation that lacks property or value, an int's bounds where
// its size, min and max have no other fault, a text inside an int that must be a number.
fn content_blame(
    least: usize,
    at: usize,
    child: usize,
    numeric: bool,
    size: u64,
    inner: Judge,
) -> usize
    requires { (at ≤ 65535) × Placed inner }
    ensures { least_in result ≡ blamed (least_in least) (content_faults at child numeric size (judge_of inner)) }
{
    if child == 11 {
        return blame_unless(inner.one & inner.two, least, 84, at);
    }
    if child == 6 {
        if size == 0 {
            return least;
        }
        if inner.sound {
            return bound_blame(least, at, size, inner);
        }
        return least;
    }
    if numeric & is_numeric(child) {
        return said_blame(least, inner.said, at);
    }
    least
}

// The judge behind the child of this number and entry at this place, whose content `inner` has judged. `bare` tells that its tag has no attributes,
// `size` is an int's size, or 0 where its text says none.
pub fn leave(
    j: Judge,
    at: usize,
    child: usize,
    entry: usize,
    bare: bool,
    size: u64,
    inner: Judge,
) -> Judge
    requires { (at ≤ 65535) × Placed j × Placed inner }
    ensures result_value { judge_of result ≡ left_by (judge_of j) at child entry bare size (judge_of inner) }
    ensures places { Placed result }
{
    let mut r = j;
    r.said = 1;
    r.least = inner.least;
    if entry == 0 {
        return r;
    }
    let turn = is_in_turn(j.row, j.last, entry);
    let least = content_blame(inner.least, at, child, j.numeric, size, inner);
    let last = larger(j.last, entry);
    let sound = is_sound(j.sound, child, turn, bare, inner.said);
    r.least = least;
    r.last = last;
    r.one = j.one | (entry == 1);
    r.two = j.two | (entry == 2);
    r.sound = sound;
    bounded(r, at, child, inner.said, inner.magnitude)
}
