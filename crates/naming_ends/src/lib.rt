// The place behind an element's name, by the element's number: one comparison with a fixed byte string. No contract asks that the name is
// found, since nothing rests on an answer of 0: the name is then looked up.
#![tactic(auto)]

ghost use Rattle.std.specs.Prelude.{◌≤◌, length};
ghost use Rattle.names.specs.Names.{element_number};
ghost use Rattle.naming_words.specs.Whole.{Known};

use naming_words::word_end;

// Of an element that stands around variables.
fn outer_end(s: &[u8], at: usize, k: u8) -> usize
    requires { at ≤ length s.now }
    ensures { Known element_number k s.now at result }
{
    match k {
        1 => word_end(s, at, b"cdi"),
        2 => word_end(s, at, b"identification"),
        3 => word_end(s, at, b"acdi"),
        4 => word_end(s, at, b"segment"),
        5 => word_end(s, at, b"group"),
        _ => 0,
    }
}

// Of a variable, a map or a relation.
fn inner_end(s: &[u8], at: usize, k: u8) -> usize
    requires { at ≤ length s.now }
    ensures { Known element_number k s.now at result }
{
    match k {
        6 => word_end(s, at, b"int"),
        7 => word_end(s, at, b"string"),
        8 => word_end(s, at, b"eventid"),
        9 => word_end(s, at, b"float"),
        10 => word_end(s, at, b"map"),
        11 => word_end(s, at, b"relation"),
        _ => 0,
    }
}

// Of one of the first six elements that hold text only.
fn first_text_end(s: &[u8], at: usize, k: u8) -> usize
    requires { at ≤ length s.now }
    ensures { Known element_number k s.now at result }
{
    match k {
        12 => word_end(s, at, b"manufacturer"),
        13 => word_end(s, at, b"model"),
        14 => word_end(s, at, b"hardwareVersion"),
        15 => word_end(s, at, b"softwareVersion"),
        16 => word_end(s, at, b"name"),
        17 => word_end(s, at, b"description"),
        _ => 0,
    }
}

// Of one of the other six elements that hold text only.
fn other_text_end(s: &[u8], at: usize, k: u8) -> usize
    requires { at ≤ length s.now }
    ensures { Known element_number k s.now at result }
{
    match k {
        18 => word_end(s, at, b"repname"),
        19 => word_end(s, at, b"min"),
        20 => word_end(s, at, b"max"),
        21 => word_end(s, at, b"default"),
        22 => word_end(s, at, b"property"),
        23 => word_end(s, at, b"value"),
        _ => 0,
    }
}

// The place behind the name of element k where it stands at this place, or 0.
pub fn element_end(s: &[u8], at: usize, k: u8) -> usize
    requires { at ≤ length s.now }
    ensures { Known element_number k s.now at result }
{
    if k < 6 {
        return outer_end(s, at, k);
    }
    if k < 12 {
        return inner_end(s, at, k);
    }
    if k < 18 {
        return first_text_end(s, at, k);
    }
    other_text_end(s, at, k)
}
