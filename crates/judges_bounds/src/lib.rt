// An int's bounds: its sign by min, what its size can store, and min at most max. Numbers are a sign and a magnitude of 64 bits.
#![tactic(auto)]

ghost use Rattle.std.specs.Prelude.{◌≡◌, not, ◌||◌, ◌*◌, ◌-◌, ◌^◌, ◌≤◌};
ghost use Rattle.std.specs.Int.Signed.{le_z};
ghost use Rattle.cdi.specs.Rules.{storable};
ghost use Rattle.cdi.specs.Values.{with_sign};
ghost use Rattle.rules_judge.specs.Judging.{blamed, bound_blame};
ghost use Rattle.judges_state.specs.Decoded.{least_in, judge_of, Placed};
ghost use Rattle.judges_state.specs.Steps.{size_at};

use judges_state::Judge;
use keys::blame_unless;
use numbers::with_sign;
use numbers_order::is_at_most;

// Half of the numbers that a size can store: 1, 2, 4 or 8 bytes.
#[tactic(auto, unfolding(judges_state::specs::Steps::size_at))]
fn half(size: u64) -> u64
    requires { 1 ≤ size }
    ensures value { result ≡ 2 ^ (8 * size_at size - 1) }
    ensures bounds { (1 ≤ result) × (result ≤ 0x8000_0000_0000_0000) }
{
    match size {
        1 => 0x80,
        2 => 0x8000,
        4 => 0x8000_0000,
        _ => 0x8000_0000_0000_0000,
    }
}

// Can a size store the number, signed or not?
fn is_storable(signed: bool, size: u64, negative: bool, magnitude: u64) -> bool
    requires { 1 ≤ size }
    ensures { result ≡ storable signed (size_at size) (with_sign negative magnitude) }
{
    let most = half(size);
    match (signed, negative) {
        (true, true) => magnitude <= most,
        (true, false) => magnitude <= most - 1,
        (false, true) => magnitude == 0,
        (false, false) => magnitude <= most + (most - 1),
    }
}

// Can a size store a bound, where it is there?
fn is_held(there: bool, signed: bool, size: u64, negative: bool, magnitude: u64) -> bool
    requires { 1 ≤ size }
    ensures { result ≡ (not there || storable signed (size_at size) (with_sign negative magnitude)) }
{
    !there || is_storable(signed, size, negative, magnitude)
}

// Is min at most max, where that is asked? Each has its sign before it.
fn is_in_order(asked: bool, minus: bool, min: u64, negative: bool, max: u64) -> bool
    ensures { result ≡ (not asked || le_z (with_sign minus min) (with_sign negative max)) }
{
    !asked || is_at_most(with_sign(minus, min), with_sign(negative, max))
}

// The least with the faults of the bounds of an int of that size, which stands at that place. Without min, 0 is stored and no max that is stored lies
// below it; without max, the largest number of the size is stored and no min that is stored lies above it.
pub fn bound_blame(least: usize, place: usize, size: u64, i: Judge) -> usize
    requires { (1 ≤ size) × (place ≤ 65535) × Placed i }
    ensures { least_in result ≡ blamed (least_in least) (bound_blame place (size_at size) (judge_of i).low (judge_of i).high) }
{
    let signed = i.has_low & (i.low_negative & (i.smallest != 0));
    let low = is_held(i.has_low, signed, size, i.low_negative, i.smallest);
    let high = is_held(i.has_high, signed, size, i.high_negative, i.largest);
    let asked = (i.has_low & i.has_high) & (low & high);
    let ordered = is_in_order(
        asked,
        i.low_negative,
        i.smallest,
        i.high_negative,
        i.largest,
    );
    let first = blame_unless(low, least, 10, i.low);
    let second = blame_unless(high, first, 10, i.high);
    blame_unless(ordered, second, 10, place)
}
