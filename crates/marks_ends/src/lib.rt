// An end tag, and whether it has an element's name: compared in place first, and read where that fails.
#![tactic(auto)]

ghost use Rattle.std.specs.Prelude.{◌≡◌, [], ◌∷◌, true, ◌+◌, ◌≤◌, ◌<◌, length, drop};
ghost use Rattle.cdi.specs.Lists.{begins};
ghost use Rattle.pieces_cuts.specs.Places.{Name};
ghost use Rattle.marks_ends.specs.Ends.{Finishes, shut_end, Closes};

use pieces_cuts::names::name_end;
use scan::same;
use spans::{blanks, is_at};

// An end tag: its name ends before `behind`, and `end` is behind it; both are 0 where it is malformed.
#[derive(Clone, Copy)]
pub struct Finish {
    pub behind: usize,
    pub end: usize,
}

// An end tag against a name: the number is 0 where it has that name, 6 where it has another, and 4 where it is malformed; then the places are 0.
#[derive(Clone, Copy)]
pub struct Closed {
    pub number: usize,
    pub behind: usize,
    pub end: usize,
}

// The end tag at this place.
pub fn end_tag(s: &[u8], at: usize) -> Finish
    requires { (at + 2 ≤ length s.now) × (begins (60 ∷ 47 ∷ []) (drop at s.now) ≡ true) }
    ensures finishes { Finishes s.now at result.behind result.end }
    ensures bounds { (result.behind ≤ length s.now) × (result.end ≤ length s.now) }
{
    let behind = name_end(s, at + 2);
    if behind == at + 2 {
        return Finish { behind: 0, end: 0 };
    }
    let close = blanks(s, behind);
    if is_at(s, close, b'>') {
        return Finish {
            behind,
            end: close + 1,
        };
    }
    Finish { behind: 0, end: 0 }
}

// The place behind `>` where the name from `from` to before `to` stands at this place too, with `>` right behind it; else 0.
pub fn shut(s: &[u8], from: usize, to: usize, at: usize) -> usize
    requires { (from ≤ to) × (to ≤ length s.now) × (at ≤ length s.now) }
    ensures value { result ≡ shut_end s.now from to at }
    ensures bounds { result ≤ length s.now }
{
    let n = to - from;
    if s.len() - at <= n {
        return 0;
    }
    if s[at + n] != 62 {
        return 0;
    }
    // A `while`: tried as a `for`, it is slower.
    let mut i = 0;
    while i < n {
        if s[from + i] != s[at + i] {
            return 0;
        }
        i += 1;
    }
    at + n + 1
}

// The end tag at this place against the name from `from` to before `to`, by reading it.
fn read_close(s: &[u8], from: usize, to: usize, at: usize) -> Closed
    requires { (from ≤ to) × (to ≤ length s.now) × (at + 2 ≤ length s.now) × (begins (60 ∷ 47 ∷ []) (drop at s.now) ≡ true) }
    ensures closes { Closes s.now from to at result.number result.behind result.end }
    ensures bounds { (result.number ≤ 6) × (result.behind ≤ length s.now) × (result.end ≤ length s.now) }
{
    let tag = end_tag(s, at);
    let behind = tag.behind;
    let end = tag.end;
    if end == 0 {
        return Closed {
            number: 4,
            behind: 0,
            end: 0,
        };
    }
    let first = at + 2;
    if same(&s[from..to], &s[first..behind]) {
        return Closed {
            number: 0,
            behind,
            end,
        };
    }
    Closed {
        number: 6,
        behind,
        end,
    }
}

// The end tag at this place against the name from `from` to before `to`.
pub fn close(s: &[u8], from: usize, to: usize, at: usize) -> Closed
    requires { (from < to) × (to ≤ length s.now) × Name s.now from to × (at + 2 ≤ length s.now) × (begins (60 ∷ 47 ∷ []) (drop at s.now) ≡ true) }
    ensures closes { Closes s.now from to at result.number result.behind result.end }
    ensures bounds { (result.number ≤ 6) × (result.behind ≤ length s.now) × (result.end ≤ length s.now) }
{
    let end = shut(s, from, to, at + 2);
    if end == 0 {
        return read_close(s, from, to, at);
    }
    Closed {
        number: 0,
        behind: end - 1,
        end,
    }
}
