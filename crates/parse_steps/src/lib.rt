// What a start tag must keep, and what may stand outside the root: no state is needed. Definitions speak of what a piece asks for by the two enums.
#![tactic(auto)]

ghost use Rattle.std.specs.Prelude.{◌≡◌, cond, not, ◌&&◌, eqb, ltb, ◌+◌, ◌≤◌};
ghost use Rattle.parse_steps.specs.Asks.{begin_fault};

use terms::{DEEPEST, MOST_ELEMENTS};

// What a piece inside the root asks for: an element begins, an element ends, the piece is passed, or it is refused.
#[derive(Clone, Copy)]
pub enum Step {
    Child,
    Close,
    Pass,
    Stop { number: usize },
}

// What a piece outside the root asks for: the root begins, the piece is passed, or it is refused.
#[derive(Clone, Copy)]
pub enum Around {
    Root,
    Skip,
    Stray { number: usize, place: usize },
}

// The number of a start tag's own fault, or 0. Where all 24 levels are left, nothing is open.
pub fn begin(refers: bool, left: usize, begun: usize) -> usize
    requires { begun ≤ 4096 }
    ensures { (result ≡ begin_fault refers left begun) × (1 ≤ left + result) × (begun + 1 ≤ 4096 + result) }
{
    if refers {
        return 5;
    }
    if left == 0 {
        return 7;
    }
    if begun == 0 {
        return 0;
    }
    if left == DEEPEST {
        return 6;
    }
    if begun < MOST_ELEMENTS {
        return 0;
    }
    7
}

// Does text stand outside the root?
pub fn is_stray(left: usize, solid: usize, end: usize) -> bool
    ensures { result ≡ (eqb left 24 && ltb solid end) }
{
    (left == DEEPEST) & (solid < end)
}

// Does a reference stand outside the root?
pub fn is_outside(left: usize, refers: bool) -> bool
    ensures { result ≡ (eqb left 24 && refers) }
{
    (left == DEEPEST) & refers
}

// The number of the refusal of an end tag outside the root, which is malformed where its end is 0.
pub fn stray_number(end: usize) -> usize
    ensures { result ≡ cond (eqb end 0) 4 6 }
{
    if end == 0 {
        return 4;
    }
    6
}

// Is the text over, behind the root?
pub fn is_over(left: usize, begun: usize) -> bool
    ensures { result ≡ (eqb left 24 && not (eqb begun 0)) }
{
    (left == DEEPEST) & (begun != 0)
}
