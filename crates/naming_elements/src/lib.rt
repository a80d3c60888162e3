// The element's name that stands at a place, with its number: a guess by its first three bytes, on which nothing rests, and one comparison
// with a fixed byte string; where that fails, the name is read and looked up.
#![tactic(auto)]

ghost use Rattle.std.specs.Prelude.{◌≡◌, ◌≤◌, length};
ghost use Rattle.names.specs.Names.{element_number};
ghost use Rattle.pieces_cuts.specs.Places.{part, Name};

use names::element_number;
use naming_ends::element_end;
use naming_words::Named;
use pieces_cuts::names::name_end;

// The number of the element whose name may begin with `m` and these bytes.
fn guess_m(b: u8, c: u8) -> u8 {
    if b == b'i' {
        return 19;
    }
    if b == b'o' {
        return 13;
    }
    if c == b'p' {
        return 10;
    }
    if c == b'x' {
        return 20;
    }
    12
}

// The number of the element whose name may begin with `s` and this byte.
fn guess_s(b: u8) -> u8 {
    if b == b't' {
        return 7;
    }
    if b == b'e' {
        return 4;
    }
    15
}

// The number of the element whose name may begin with these bytes, or 0.
fn guess(a: u8, b: u8, c: u8) -> u8 {
    match a {
        b'a' => 3,
        b'c' => 1,
        b'd' => {
            if c == b's' {
                return 17;
            }
            21
        }
        b'e' => 8,
        b'f' => 9,
        b'g' => 5,
        b'h' => 14,
        b'i' => {
            if b == b'n' {
                return 6;
            }
            2
        }
        b'm' => guess_m(b, c),
        b'n' => 16,
        b'p' => 22,
        b'r' => {
            if c == b'l' {
                return 11;
            }
            18
        }
        b's' => guess_s(b),
        b'v' => 23,
        _ => 0,
    }
}

// The number of the element whose name may stand at this place, or 0.
fn guess_at(s: &[u8], at: usize) -> u8
    requires { at ≤ length s.now }
{
    if s.len() - at < 3 {
        return 0;
    }
    guess(s[at], s[at + 1], s[at + 2])
}

// The element's name at this place.
pub fn element_name(s: &[u8], at: usize) -> Named
    requires { at ≤ length s.now }
    ensures name { Name s.now at result.behind }
    ensures number { result.number ≡ element_number (part s.now at result.behind) }
    ensures bounds { result.number ≤ 23 }
{
    let k = guess_at(s, at);
    let behind = element_end(s, at, k);
    if behind == 0 {
        let end = name_end(s, at);
        let number = element_number(&s[at..end]);
        return Named {
            number,
            behind: end,
        };
    }
    Named { number: k, behind }
}
