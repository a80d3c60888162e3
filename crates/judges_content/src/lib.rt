// What stands in an element besides its children: stray text and references, and the number that its text says.
#![tactic(auto)]

ghost use Rattle.std.specs.Prelude.{◌≡◌, cond, ◌+◌, ◌≤◌, ◌<◌, length};
ghost use Rattle.cdi.specs.Lists.{while as longest};
ghost use Rattle.cdi.specs.Pieces.{text, blank};
ghost use Rattle.cdi.specs.Numbers.{number};
ghost use Rattle.pieces_cuts.specs.Places.{part};
ghost use Rattle.rules_judge.specs.Judging.{said_by, spoken, other_of};
ghost use Rattle.judges_state.specs.Decoded.{said_of, judge_of, Placed};
ghost use Rattle.judges_state.specs.Steps.{rare_of};

use judges_state::Judge;
use judges_tables::{holds_text, is_numeric};
use keys::blame_unless;
use numbers::read_number;

// What a text says as a number, as a judge has it.
// A code and no enum: a judge holds plain numbers (`judges_state`), and this is stored in it as it is.
#[derive(Clone, Copy)]
pub struct Spoken {
    pub said: usize,
    pub magnitude: u64,
}

// What a text says as a number.
pub fn told(value: &[u8]) -> Spoken
    ensures { said_of result.said result.magnitude ≡ said_by (number value.now) }
{
    let Some(n) = read_number(value) else {
        return Spoken {
            said: 1,
            magnitude: 0,
        };
    };
    let beyond = n.large | (n.negative & (0x8000_0000_0000_0000 < n.magnitude));
    if beyond {
        return Spoken {
            said: 2,
            magnitude: 0,
        };
    }
    Spoken {
        said: if n.negative { 4 } else { 3 },
        magnitude: n.magnitude,
    }
}

// What an element has said with this run of text more, where it must be a number: one run of text, and nothing else, is one.
fn said_with(asked: bool, said: usize, magnitude: u64, s: &[u8], at: usize, end: usize) -> Spoken
    requires { (at < end) × (end ≤ length s.now) }
    ensures { said_of result.said result.magnitude ≡ cond asked (spoken (said_of said magnitude) (text (part s.now at end))) (said_of said magnitude) }
{
    if !asked {
        Spoken { said, magnitude }
    } else if said == 0 {
        told(&s[at..end])
    } else {
        Spoken {
            said: 1,
            magnitude: 0,
        }
    }
}

// What an element has said with a comment, an instruction or a reference more: no number, where it must be one.
fn said_behind(asked: bool, said: usize) -> usize
    ensures { result ≡ cond asked 1 said }
{
    if asked { 1 } else { said }
}

// The judge behind a run of text from this place to `end`, whose first byte that isn't blank stands at `solid`.
pub fn with_run(j: Judge, s: &[u8], at: usize, end: usize, solid: usize) -> Judge
    requires { (at < end) × (end ≤ length s.now) × (end ≤ 65535) × (solid ≤ end) × (solid ≡ at + length (longest blank (part s.now at end))) × Placed j }
    ensures result_value { judge_of result ≡ other_of (judge_of j) at (text (part s.now at end)) }
    ensures places { Placed result }
{
    let least = blame_unless(holds_text(j.row) | (solid == end), j.least, 88, solid);
    let n = said_with(
        j.numeric & is_numeric(j.row),
        j.said,
        j.magnitude,
        s,
        at,
        end,
    );
    let mut r = j;
    r.least = least;
    r.said = n.said;
    r.magnitude = n.magnitude;
    r
}

// The judge behind a comment, an instruction or, where it refers, a reference at this place.
pub fn with_rare(j: Judge, at: usize, refers: bool) -> Judge
    requires { (at ≤ 65535) × Placed j }
    ensures result_value { judge_of result ≡ other_of (judge_of j) at (rare_of refers) }
    ensures places { Placed result }
{
    let least = blame_unless(holds_text(j.row) | !refers, j.least, 88, at);
    let said = said_behind(j.numeric & is_numeric(j.row), j.said);
    let mut r = j;
    r.least = least;
    r.said = said;
    r
}
