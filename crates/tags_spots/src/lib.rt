// The next attribute of a tag, read once: its places, the number of its name, and whether `&` stands in its value.
#![tactic(auto)]

ghost use Rattle.std.specs.Prelude.{◌≡◌, false, ◌≤◌, length};
ghost use Rattle.cdi.specs.Pieces.{is_quote};
ghost use Rattle.pieces_cuts.specs.Places.{Quoted, Here, Next};
ghost use Rattle.tags_spots.specs.Spots.{places_of, Refers, Tells};

use naming_attributes::attribute_name;
use spans::{blanks, is_at, value_end};

// Its name stands from `name` to before `behind` and has that number, 0 where it is none of the ten; its value stands from `value` to before
// `close`, and `end` is behind its quote.
#[derive(Clone, Copy)]
pub struct Spot {
    pub name: usize,
    pub behind: usize,
    pub value: usize,
    pub close: usize,
    pub end: usize,
    pub number: u8,
    pub refers: bool,
}

// A value in its quotes: the place behind it.
#[derive(Clone, Copy)]
struct Quote {
    end: usize,
    refers: bool,
}

// No attribute: every place is this one.
fn no_spot(at: usize) -> Spot
    ensures { (result.name ≡ at) × (result.behind ≡ at) × (result.value ≡ at) × (result.close ≡ at) × (result.end ≡ at) × (result.number ≡ 0) × (result.refers ≡ false) }
{
    Spot {
        name: at,
        behind: at,
        value: at,
        close: at,
        end: at,
        number: 0,
        refers: false,
    }
}

// Does a value stand in this quote?
fn is_quote(b: u8) -> bool
    ensures { result ≡ is_quote b }
{
    (b == 34) | (b == 39)
}

fn no_quote(at: usize) -> Quote
    ensures { (result.end ≡ at) × (result.refers ≡ false) }
{
    Quote {
        end: at,
        refers: false,
    }
}

// The value whose quote stands at this place; its end is this place where no value does.
fn quote_at(s: &[u8], at: usize) -> Quote
    requires { at ≤ length s.now }
    ensures quoted { Quoted s.now at result.end }
    ensures refers { Refers s.now at result.end result.refers }
{
    if s.len() <= at {
        return no_quote(at);
    }
    let quote = s[at];
    if is_quote(quote) {
        let ended = value_end(s, at + 1, quote);
        let close = ended.close;
        if s.len() <= close {
            return no_quote(at);
        }
        if s[close] == quote {
            return Quote {
                end: close + 1,
                refers: ended.refers,
            };
        }
        return no_quote(at);
    }
    no_quote(at)
}

// The attribute whose name stands at this place; its end is this place where none does.
fn spot_at(s: &[u8], at: usize) -> Spot
    requires { at ≤ length s.now }
    ensures here { Here s.now at (places_of result) }
    ensures tells { Tells s.now at result }
{
    let name = attribute_name(s, at);
    let behind = name.behind;
    if behind == at {
        return no_spot(at);
    }
    let equals = blanks(s, behind);
    if is_at(s, equals, b'=') {
        let open = blanks(s, equals + 1);
        let value = quote_at(s, open);
        let end = value.end;
        if end < open + 2 {
            return no_spot(at);
        }
        return Spot {
            name: at,
            behind,
            value: open + 1,
            close: end - 1,
            end,
            number: name.number,
            refers: value.refers,
        };
    }
    no_spot(at)
}

// The next attribute from this place on, which is behind the tag's name or behind an attribute; its end is this place where there is none.
pub fn next_spot(s: &[u8], at: usize) -> Spot
    requires { at ≤ length s.now }
    ensures next { Next s.now at (places_of result) }
    ensures tells { Tells s.now at result }
{
    let name = blanks(s, at);
    if name == at {
        return no_spot(at);
    }
    let a = spot_at(s, name);
    if a.end == name {
        return no_spot(at);
    }
    a
}
