// The attributes of a tag, each read once: where they end, and what they say.
#![tactic(auto)]

ghost use Rattle.std.specs.Prelude.{◌≡◌, not, ◌≤◌, eqb, length, drop, get_or};
ghost use Rattle.cdi.specs.Pieces.{attributes};
ghost use Rattle.pieces_cuts.specs.Places.{Closes};
ghost use Rattle.tags_cells.specs.Cells.{Fresh};
ghost use Rattle.tags_gather.specs.Gathers.{Gathers};

use tags_cells::{exact_with, note};
use tags_faults::{is_among, known_to};
use tags_spots::next_spot;

// What was read: `last` is behind the last attribute, `exact` the size that the first `size` says exactly, 1 where there is none and 0 where it says none.
#[derive(Clone, Copy)]
pub struct Gathered {
    pub last: usize,
    pub count: usize,
    pub exact: u8,
    pub refers: bool,
    pub known: bool,
    pub again: bool,
    pub strange: bool,
}

fn wide(number: u8) -> usize
    ensures { result ≡ number }
{
    number as usize
}

// Was a name of that number met before?
fn was_met(a: u8, codes: &[u8; 11]) -> bool
    requires { a ≤ 10 }
    ensures { result ≡ not (eqb (get_or codes.now a 0) 0) }
{
    let i = wide(a);
    codes[i] != 0
}

// Reads the attributes from this place on, in the tag of that element, and notes their values in the cells.
pub fn gather(
    s: &[u8],
    at: usize,
    element: u8,
    codes: &mut [u8; 11],
    amounts: &mut [u64; 11],
) -> Gathered
    requires { (at ≤ length s.now) × Fresh codes.old amounts.old }
    ensures closes { Closes s.now at result.last }
    ensures gathers { Gathers element (attributes at 0 (drop at s.now)) result codes.new amounts.new }
{
    let set = known_to(element);
    let mut i = at;
    let mut count: usize = 0;
    let mut exact: u8 = 1;
    let mut refers = false;
    let mut known = true;
    let mut again = false;
    let mut strange = false;
    // A `loop`: a step goes past a whole attribute, up to the place where none is read.
    loop {
        let a = next_spot(s, i);
        let end = a.end;
        if end == i {
            return Gathered {
                last: i,
                count,
                exact,
                refers,
                known,
                again,
                strange,
            };
        }
        let from = a.value;
        let close = a.close;
        let number = a.number;
        refers = refers | a.refers;
        known = known & is_among(set, number);
        again = again | was_met(number, codes);
        strange = strange | (number == 0);
        exact = exact_with(&s[from..close], number, codes, exact);
        note(&s[from..close], number, codes, amounts);
        count += 1;
        i = end;
    }
}
