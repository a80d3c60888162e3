// The state of parsing as plain numbers, judge and tally beside each other, and the steps that move it. Parsing knows these by their contracts
// alone.
#![tactic(auto)]

ghost use Rattle.std.specs.Prelude.{◌≡◌, Bool, ◌+◌, ◌%◌, ◌≤◌, ◌<◌, length, drop};
ghost use Rattle.cdi.specs.Lists.{while as longest};
ghost use Rattle.cdi.specs.Pieces.{blank, attributes, text};
ghost use Rattle.names.specs.Names.{element_number};
ghost use Rattle.pieces_cuts.specs.Places.{part};
ghost use Rattle.rules_judge.specs.Tables.{entry_at};
ghost use Rattle.judges_state.specs.Decoded.{said_of};
ghost use Rattle.judges_state.specs.Steps.{rare_of};
ghost use Rattle.tags.specs.Reads.{Reads};
ghost use Rattle.parse_sums.specs.Sums.{at_first, enter_of, other_of, leave_of, written_of};
ghost use Rattle.parse_state.specs.States.{state_of, Fits, leaf_of};

use judges_state::Judge;
use tags::Tag;
use tallies_state::Tally;

#[derive(Clone, Copy)]
pub struct State {
    pub judge: Judge,
    pub tally: Tally,
}

fn wider(number: u8) -> u64
    ensures { result ≡ number }
{
    number as u64
}

// The state before the text.
pub fn start() -> State
    ensures { (state_of result ≡ at_first) × Fits result × (result.tally.records ≤ 0) }
{
    let judge = judges_state::start();
    let tally = tallies_state::start();
    State { judge, tally }
}

// The state inside the element of that number and entry, whose start tag stands at this place and whose name ends before `behind`.
pub fn enter(
    s: &[u8],
    at: usize,
    behind: usize,
    child: usize,
    entry: usize,
    tag: Tag,
    st: State,
) -> State
    requires { Reads s.now at behind child tag × (tag.end ≡ 0 → ⊥) × (child ≡ element_number (part s.now (at + 1) behind)) × (entry ≡ entry_at st.judge.row child) × (at < behind) × (at ≤ 65535) × Fits st × (st.tally.records < 4096) }
    ensures { (state_of result ≡ enter_of (state_of st) at (part s.now (at + 1) behind) (attributes behind 0 (drop behind s.now))) × Fits result × (result.tally.records ≤ st.tally.records + 1) }
{
    let judge = judges_enter::enter(st.judge, at, child, entry, tag.told);
    let tally = tallies_state::enter(st.tally, at, child);
    State { judge, tally }
}

// The state behind a run of text from this place to before `end`, whose first byte that isn't blank stands at `solid`.
pub fn with_run(s: &[u8], at: usize, end: usize, solid: usize, st: State) -> State
    requires { (at < end) × (end ≤ length s.now) × (length s.now ≤ 65535) × (solid ≤ end) × (solid ≡ at + length (longest blank (part s.now at end))) × Fits st }
    ensures { (state_of result ≡ other_of (state_of st) at (text (part s.now at end))) × Fits result × (result.tally.records ≤ st.tally.records) }
{
    let judge = judges_content::with_run(st.judge, s, at, end, solid);
    let tally = st.tally;
    State { judge, tally }
}

// The state behind a comment, an instruction or, where it refers, a reference.
pub fn with_rare(at: usize, refers: bool, st: State) -> State
    requires { (at ≤ 65535) × Fits st }
    ensures { (state_of result ≡ other_of (state_of st) at (rare_of refers)) × Fits result × (result.tally.records ≤ st.tally.records) }
{
    let judge = judges_content::with_rare(st.judge, at, refers);
    let tally = st.tally;
    State { judge, tally }
}

// The state behind a plain leaf.
pub fn with_leaf(
    at: usize,
    child: usize,
    entry: usize,
    said: usize,
    magnitude: u64,
    st: State,
) -> State
    requires { (at ≤ 65535) × Fits st }
    ensures { (state_of result ≡ leaf_of (state_of st) at child entry (said_of said magnitude)) × Fits result × (result.tally.records ≤ st.tally.records) }
{
    let judge = judges_leaf::with_leaf(st.judge, at, child, entry, said, magnitude);
    let tally = st.tally;
    State { judge, tally }
}

// The state behind the element whose start tag stands at this place: `outer` is the state before it, `inner` that at its content's end. Its record is
// written, where there is room.
pub fn leave(
    s: &[u8],
    at: usize,
    behind: usize,
    child: usize,
    entry: usize,
    tag: Tag,
    outer: State,
    inner: State,
    rows: &mut [i64],
) -> State
    requires { Reads s.now at behind child tag × (tag.end ≡ 0 → ⊥) × (child ≡ element_number (part s.now (at + 1) behind)) × (entry ≡ entry_at outer.judge.row child) × (at ≤ 65535) × Fits outer × Fits inner × (length rows.old % 8 ≡ 0) }
    ensures result_value { (state_of result ≡ leave_of (state_of outer) at (part s.now (at + 1) behind) (attributes behind 0 (drop behind s.now)) (state_of inner)) × Fits result × (result.tally.records ≤ inner.tally.records) }
    ensures rows { (rows.new ≡ written_of (state_of outer) at (part s.now (at + 1) behind) (attributes behind 0 (drop behind s.now)) (state_of inner) rows.old) × (length rows.new ≡ length rows.old) }
{
    let given = tag.given;
    let judge = judges_leave::leave(
        outer.judge,
        at,
        child,
        entry,
        tag.bare,
        wider(tag.exact),
        inner.judge,
    );
    let tally = tallies::leave(outer.tally, at, child, given, inner.tally, rows);
    State { judge, tally }
}
