// The names of a tag's attributes: compared plainly, put into a table, and one of them met again.
#![tactic(auto)]

ghost use Rattle.std.specs.Prelude.{◌≡◌, true, ◌≤◌, length, drop};
ghost use Rattle.cdi.specs.Pieces.{attributes, twice};
ghost use Rattle.pieces_attributes.specs.Answers.{Shows};
ghost use Rattle.pieces_listed.specs.Tables.{Holds};

use pieces_attributes::{is_named, next_attribute};
use pieces_order::{is_number, number_of};

// Does a name stand twice among the attributes from this place on? Each is compared with all that follow it.
pub fn is_plainly_twice(s: &[u8], at: usize) -> bool
    requires { at ≤ length s.now }
    ensures { result ≡ twice (attributes at 0 (drop at s.now)) }
{
    let mut i = at;
    while let Some(a) = next_attribute(s, i) {
        if is_named(s, a.end, &s[a.name..a.behind]) {
            return true;
        }
        i = a.end;
    }
    false
}

// Puts the numbers of the names of the attributes from this place on into a table: how many. All of the table where they don't fit, or where a place is
// too large for a number.
pub fn fill(s: &[u8], at: usize, names: &mut [usize]) -> usize
    requires { at ≤ length s.now }
    ensures { Holds s.now at names.new result }
{
    let mut i = at;
    for n in 0..names.len() {
        let Some(a) = next_attribute(s, i) else {
            return n;
        };
        let x = number_of(a.name, a.behind);
        if !is_number(x, a.name, a.behind) {
            break;
        }
        names[n] = x;
        i = a.end;
    }
    names.len()
}

// Is there an attribute whose name begins at `place`, and another of the same name behind it?
pub fn is_again(s: &[u8], at: usize, place: usize) -> bool
    requires { at ≤ length s.now }
    ensures { Shows result (twice (attributes at 0 (drop at s.now)) ≡ true) }
{
    let mut i = at;
    while let Some(a) = next_attribute(s, i) {
        if a.name == place {
            return is_named(s, a.end, &s[a.name..a.behind]);
        }
        i = a.end;
    }
    false
}
