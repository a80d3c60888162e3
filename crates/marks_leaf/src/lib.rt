// A plain leaf: an element without attributes that holds nothing or one run of text, which has no `>`, and whose end tag has no blank.
#![tactic(auto)]

ghost use Rattle.std.specs.Prelude.{◌≡◌, ◌+◌, ◌≤◌, ◌<◌, length, drop};
ghost use Rattle.pieces_cuts.specs.Places.{Name};
ghost use Rattle.marks_cuts.specs.Marks.{sort_at};
ghost use Rattle.marks_leaf.specs.Leaves.{Leaves};

use marks_ends::shut;
use marks_runs::text_end;

// Its content ends before `to`, and `end` is behind its end tag. Where `end` is 0, nothing is known.
#[derive(Clone, Copy)]
pub struct Leaf {
    pub to: usize,
    pub end: usize,
}

// The plain leaf whose start tag begins at this place and whose name ends before `behind`.
pub fn leaf_at(s: &[u8], at: usize, behind: usize) -> Leaf
    requires { (sort_at (drop at s.now) ≡ 0) × Name s.now (at + 1) behind × (at + 1 < behind) × (behind ≤ length s.now) }
    ensures leaves { Leaves s.now at behind result.to result.end }
    ensures bounds { (result.to ≤ length s.now) × (result.end ≤ length s.now) }
{
    if s.len() <= behind {
        return Leaf { to: 0, end: 0 };
    }
    if s[behind] != 62 {
        return Leaf { to: 0, end: 0 };
    }
    let to = text_end(s, behind + 1);
    if s.len() - to < 2 {
        return Leaf { to: 0, end: 0 };
    }
    if (s[to] != 60) | (s[to + 1] != 47) {
        return Leaf { to: 0, end: 0 };
    }
    let end = shut(s, at + 1, behind, to + 2);
    Leaf { to, end }
}
