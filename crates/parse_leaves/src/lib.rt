// A plain leaf that stands in its turn: what reading elements must know of it, so that no judge of its own and no call is needed.
#![tactic(auto)]

ghost use Rattle.std.specs.Prelude.{◌≡◌, ◌+◌, ◌≤◌, ◌<◌, length, drop};
ghost use Rattle.pieces_cuts.specs.Places.{Name};
ghost use Rattle.marks_cuts.specs.Marks.{sort_at};
ghost use Rattle.parse_leaves.specs.Leaves.{Plainly};

use judges_leaf::{is_leaf_good, leaf_said};
use marks_leaf::leaf_at;

// A plain leaf: the place behind it, and what it says. Where `end` is 0, nothing is known: the contract allows that answer of any element, so there is no
// theorem of one answer.
#[derive(Clone, Copy)]
pub struct Leaf {
    pub end: usize,
    pub said: usize,
    pub magnitude: u64,
}

fn no_leaf() -> Leaf
    ensures { result.end ≡ 0 }
{
    Leaf {
        end: 0,
        said: 0,
        magnitude: 0,
    }
}

// The element at this place as a plain leaf: it holds text only, stands in a later entry than `last` and inside the root, and is a good number where it
// must be one. `number` is that of its tag's own fault.
pub fn plain_leaf(
    s: &[u8],
    at: usize,
    behind: usize,
    number: usize,
    child: usize,
    entry: usize,
    last: usize,
    level: usize,
    numeric: bool,
) -> Leaf
    requires { (sort_at (drop at s.now) ≡ 0) × Name s.now (at + 1) behind × (at + 1 < behind) × (behind ≤ length s.now) }
    ensures { (result.end ≡ 0 → ⊥) → Plainly s.now at behind number child entry last level numeric result }
{
    if number != 0 {
        return no_leaf();
    }
    if child < 12 {
        return no_leaf();
    }
    if entry <= last {
        return no_leaf();
    }
    if level == 0 {
        return no_leaf();
    }
    let leaf = leaf_at(s, at, behind);
    if leaf.end == 0 {
        return no_leaf();
    }
    let first = behind + 1;
    let to = leaf.to;
    let word = leaf_said(numeric, child, &s[first..to]);
    if is_leaf_good(numeric, child, word.said) {
        return Leaf {
            end: leaf.end,
            said: word.said,
            magnitude: word.magnitude,
        };
    }
    no_leaf()
}
