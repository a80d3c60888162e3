// The attribute's name that stands at a place, with its number: a guess by its first two bytes, on which nothing rests, and one comparison
// with a fixed byte string; where that fails, the name is read and looked up.
#![tactic(auto)]

ghost use Rattle.std.specs.Prelude.{◌≡◌, ◌≤◌, length};
ghost use Rattle.names.specs.Names.{attribute_number};
ghost use Rattle.pieces_cuts.specs.Places.{part, Name};
ghost use Rattle.naming_words.specs.Whole.{Known};

use names::attribute_number;
use naming_words::{Named, word_end};
use pieces_cuts::names::name_end;

// One of the two numbers, by whether the bytes are the same.
fn either(b: u8, one: u8, first: u8, second: u8) -> u8 {
    if b == one {
        return first;
    }
    second
}

// The number of the attribute whose name may begin with these bytes, or 0.
fn guess(a: u8, b: u8) -> u8 {
    match a {
        b'f' => either(b, b'o', 10, 3),
        b'o' => either(b, b'f', 8, 6),
        b'r' => 7,
        b's' => either(b, b'i', 9, 5),
        b'v' => 4,
        b'x' => either(b, b'm', 1, 2),
        _ => 0,
    }
}

// The number of the attribute whose name may stand at this place, or 0.
fn guess_at(s: &[u8], at: usize) -> u8
    requires { at ≤ length s.now }
{
    if s.len() - at < 2 {
        return 0;
    }
    guess(s[at], s[at + 1])
}

// The place behind the name of one of the first five attributes where it stands at this place, or 0.
fn first_end(s: &[u8], at: usize, k: u8) -> usize
    requires { at ≤ length s.now }
    ensures { Known attribute_number k s.now at result }
{
    match k {
        1 => word_end(s, at, b"xmlns:xsi"),
        2 => word_end(s, at, b"xsi:noNamespaceSchemaLocation"),
        3 => word_end(s, at, b"fixed"),
        4 => word_end(s, at, b"var"),
        5 => word_end(s, at, b"space"),
        _ => 0,
    }
}

// The place behind the name of one of the other five attributes where it stands at this place, or 0.
fn other_end(s: &[u8], at: usize, k: u8) -> usize
    requires { at ≤ length s.now }
    ensures { Known attribute_number k s.now at result }
{
    match k {
        6 => word_end(s, at, b"origin"),
        7 => word_end(s, at, b"replication"),
        8 => word_end(s, at, b"offset"),
        9 => word_end(s, at, b"size"),
        10 => word_end(s, at, b"formatting"),
        _ => 0,
    }
}

// The place behind the name of attribute k where it stands at this place, or 0. Nothing rests on an answer of 0.
fn attribute_end(s: &[u8], at: usize, k: u8) -> usize
    requires { at ≤ length s.now }
    ensures { Known attribute_number k s.now at result }
{
    if k < 6 {
        return first_end(s, at, k);
    }
    other_end(s, at, k)
}

// The attribute's name at this place.
pub fn attribute_name(s: &[u8], at: usize) -> Named
    requires { at ≤ length s.now }
    ensures name { Name s.now at result.behind }
    ensures number { result.number ≡ attribute_number (part s.now at result.behind) }
    ensures bounds { result.number ≤ 10 }
{
    let k = guess_at(s, at);
    let behind = attribute_end(s, at, k);
    if behind == 0 {
        let end = name_end(s, at);
        let number = attribute_number(&s[at..end]);
        return Named {
            number,
            behind: end,
        };
    }
    Named { number: k, behind }
}
