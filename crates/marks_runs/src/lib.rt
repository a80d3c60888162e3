// A run of text, in one scan: blanks, then bytes up to `<` or `&`; at each `>` the two bytes before it are looked at.
#![tactic(auto)]

ghost use Rattle.std.specs.Prelude.{◌≡◌, true, ◌≤◌, ◌<◌, length, get_or};
ghost use Rattle.cdi.specs.Pieces.{is_text};
ghost use Rattle.scan.specs.Spans.{Span};
ghost use Rattle.marks_cuts.specs.Marks.{plain};
ghost use Rattle.marks_runs.specs.Runs.{bracketed, Runs};

use spans::blanks;

// A run of text: its end, or 0 where `]]>` stands in it, and its first byte that isn't blank, or its end. Where `]]>` stands in it, that byte
// is told too.
#[derive(Clone, Copy)]
pub struct Run {
    pub end: usize,
    pub solid: usize,
}

// Is it neither `<`, `&` nor `>`? The first test answers for most bytes.
fn is_plain(b: u8) -> bool
    ensures { result ≡ plain b }
{
    if 62 < b {
        return true;
    }
    (b != 60) & (b != 38) & (b != 62)
}

// The place of the first of `<`, `&` and `>` from this place on, or the end.
pub fn text_end(s: &[u8], at: usize) -> usize
    requires { at ≤ length s.now }
    ensures { Span plain s.now at result }
{
    // A `while`: tried with `scan::span_while`, it is slower.
    let mut i = at;
    while i < s.len() {
        if is_plain(s[i]) {
            i += 1;
        } else {
            return i;
        }
    }
    i
}

// Does `]]` stand right before this place, and not before `from`?
fn is_bracketed(s: &[u8], from: usize, at: usize) -> bool
    requires { (from ≤ at) × (at ≤ length s.now) }
    ensures { result ≡ bracketed s.now from at }
{
    if at - from < 2 {
        return false;
    }
    (s[at - 1] == 93) & (s[at - 2] == 93)
}

// The run of text at this place.
pub fn run_at(s: &[u8], at: usize) -> Run
    requires { (at < length s.now) × (is_text (get_or s.now at 0) ≡ true) }
    ensures runs { Runs s.now at result.end result.solid }
    ensures bounds { (result.end ≤ length s.now) × (at ≤ result.solid) × (result.solid ≤ length s.now) }
{
    let solid = blanks(s, at);
    for i in solid..s.len() {
        if !is_plain(s[i]) {
            if s[i] != 62 {
                return Run { end: i, solid };
            }
            if is_bracketed(s, at, i) {
                return Run { end: 0, solid };
            }
        }
    }
    Run {
        end: s.len(),
        solid,
    }
}
