// Elements and their content. Reading an element calls reading content, which calls reading an element for each child, and the depth left of 24
// falls. With all 24 levels left nothing is open: what stands around the root is read by the same loop. A plain leaf is read without a call.
#![tactic(auto)]

ghost use Rattle.std.specs.Prelude.{◌≡◌, ◌+◌, ◌%◌, ◌≤◌, ◌<◌, length, drop};
ghost use Rattle.pieces_cuts.specs.Places.{Name};
ghost use Rattle.marks_cuts.specs.Marks.{sort_at};
ghost use Rattle.parse_sums.specs.Sums.{at_first};
ghost use Rattle.parse_state.specs.States.{state_of, Fits};
ghost use Rattle.parse_elements.specs.Reading.{ElementReads, ContentReads};

use judges_tables::entry_of;
use marks_ends::{close, end_tag};
use marks_runs::run_at;
use marks_sorts::sort_of;
use naming_elements::element_name;
use parse_leaves::plain_leaf;
use parse_marks::rare_at;
use parse_state::{State, enter, leave, start, with_leaf, with_rare, with_run};
use parse_steps::{begin, is_outside, is_over, is_stray, stray_number};
use tags::start_tag;
use terms::DEEPEST;

// Where reading has come: `number` is 0, or that of the refusal, whose place `place` is then. Of a refused text the other two say nothing.
#[derive(Clone, Copy)]
pub struct Reached {
    pub number: usize,
    pub place: usize,
    pub begun: usize,
    pub state: State,
}

fn wide(number: u8) -> usize
    ensures { result ≡ number }
{
    number as usize
}

// The element whose `<` stands at this place, with `left` of the 24 levels for it and `begun` elements before it.
#[cycle(content_element)]
fn element(s: &[u8], at: usize, left: usize, begun: usize, st: State, rows: &mut [i64]) -> Reached
    requires { (at < length s.now) × (sort_at (drop at s.now) ≡ 0) × (left ≤ 24) × (begun ≤ 4096) × Fits st × (st.tally.records ≤ begun) × (length s.now ≤ 65535) × (length rows.old % 8 ≡ 0) }
    ensures { ElementReads s.now left at begun (state_of st) rows.old rows.new result }
{
    let from = at + 1;
    let name = element_name(s, from);
    let behind = name.behind;
    if behind == from {
        return Reached {
            number: 4,
            place: at,
            begun,
            state: st,
        };
    }
    let judge = st.judge;
    let tally = st.tally;
    let child = wide(name.number);
    let entry = entry_of(judge.row, child);
    let clear = begin(false, left, begun);
    let leaf = plain_leaf(
        s,
        at,
        behind,
        clear,
        child,
        entry,
        judge.last,
        tally.level,
        judge.numeric,
    );
    if leaf.end != 0 {
        return Reached {
            number: 0,
            place: leaf.end,
            begun: begun + 1,
            state: with_leaf(at, child, entry, leaf.said, leaf.magnitude, st),
        };
    }
    let tag = start_tag(s, at, behind, name.number);
    if tag.end == 0 {
        return Reached {
            number: 4,
            place: at,
            begun,
            state: st,
        };
    }
    let number = begin(tag.refers, left, begun);
    if number != 0 {
        return Reached {
            number,
            place: at,
            begun,
            state: st,
        };
    }
    let inner = enter(s, at, behind, child, entry, tag, st);
    let mut last = inner;
    let mut place = tag.end;
    let mut count = begun + 1;
    if !tag.short {
        let inside = content(s, tag.end, left - 1, begun + 1, inner, rows);
        if inside.number != 0 {
            return inside;
        }
        let end = close(s, from, behind, inside.place);
        if end.number != 0 {
            return Reached {
                number: end.number,
                place: inside.place,
                begun,
                state: st,
            };
        }
        last = inside.state;
        place = end.end;
        count = inside.begun;
    }
    Reached {
        number: 0,
        place,
        begun: count,
        state: leave(s, at, behind, child, entry, tag, st, last, rows),
    }
}

// The content from this place on, with `left` levels for its elements.
#[cycle(content_element)]
fn content(s: &[u8], at: usize, left: usize, begun: usize, st: State, rows: &mut [i64]) -> Reached
    requires { (at ≤ length s.now) × (left ≤ 24) × (begun ≤ 4096) × Fits st × (st.tally.records ≤ begun) × (length s.now ≤ 65535) × (length rows.old % 8 ≡ 0) }
    ensures { ContentReads s.now left at begun (state_of st) rows.old rows.new result }
{
    let mut i = at;
    let mut b = begun;
    let mut sum = st;
    // A `while`: a step goes past a whole piece.
    while i < s.len() {
        let sort = sort_of(s, i);
        if sort == 0 {
            let child = element(s, i, left, b, sum, rows);
            if child.number != 0 {
                return child;
            }
            i = child.place;
            b = child.begun;
            sum = child.state;
        } else {
            if sort == 2 {
                let run = run_at(s, i);
                if run.end == 0 {
                    return Reached {
                        number: 4,
                        place: i,
                        begun: b,
                        state: sum,
                    };
                }
                if is_stray(left, run.solid, run.end) {
                    return Reached {
                        number: 6,
                        place: run.solid,
                        begun: b,
                        state: sum,
                    };
                }
                sum = with_run(s, i, run.end, run.solid, sum);
                i = run.end;
            } else {
                if sort == 1 {
                    if left == DEEPEST {
                        let stray = end_tag(s, i);
                        return Reached {
                            number: stray_number(stray.end),
                            place: i,
                            begun: b,
                            state: sum,
                        };
                    }
                    return Reached {
                        number: 0,
                        place: i,
                        begun: b,
                        state: sum,
                    };
                }
                let rare = rare_at(s, i);
                if rare.number != 0 {
                    return Reached {
                        number: rare.number,
                        place: i,
                        begun: b,
                        state: sum,
                    };
                }
                if is_outside(left, rare.refers) {
                    return Reached {
                        number: 6,
                        place: i,
                        begun: b,
                        state: sum,
                    };
                }
                sum = with_rare(i, rare.refers, sum);
                i = rare.end;
            }
        }
    }
    if is_over(left, b) {
        return Reached {
            number: 0,
            place: s.len(),
            begun: b,
            state: sum,
        };
    }
    Reached {
        number: 6,
        place: s.len(),
        begun: b,
        state: sum,
    }
}

// The whole text from this place on: what stands around the root, and the root.
pub fn read(s: &[u8], from: usize, rows: &mut [i64]) -> Reached
    requires { (from ≤ length s.now) × (length s.now ≤ 65535) × (length rows.old % 8 ≡ 0) }
    ensures { ContentReads s.now 24 from 0 at_first rows.old rows.new result }
{
    let st = start();
    content(s, from, DEEPEST, 0, st, rows)
}
