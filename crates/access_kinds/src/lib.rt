// A variable with its own content, and the causes that are told without a look at its content: 22, 25, 26, and 27 of a float.
#![tactic(auto)]

ghost use Rattle.std.specs.Prelude.{◌≡◌, eqb, length};
ghost use Rattle.cdi.specs.Lists.{any};
ghost use Rattle.cdi.specs.Access.{kind_of_value, is_good_text};
ghost use Rattle.maps.specs.Matches.{wanted_of};
ghost use Rattle.access_kinds.specs.Told.{no_text, setting_is, inside_by, read_cause};

use access_order::first_cause;
use children::Part;
use maps::Wanted;
use terms::{EVENTID, FLOAT, INT, STRING};
use text::is_utf8;

// A variable as its table and its text describe it: the number of its record, its space, address, size and kind, and its own content.
#[derive(Clone, Copy)]
pub struct Setting {
    pub number: usize,
    pub space: u64,
    pub address: u64,
    pub size: usize,
    pub kind: u64,
    pub part: Part,
}

// 22: the kind of variable that a value is for.
#[tactic(auto, unfolding(cdi::specs::Access::kind_of_value, maps::specs::Matches::wanted_of))]
pub fn kind_of(value: Wanted) -> u64
    ensures { result ≡ kind_of_value (wanted_of value no_text) }
{
    match value {
        Wanted::Number { .. } => INT,
        Wanted::Event(_) => EVENTID,
        Wanted::Text => STRING,
    }
}

fn has_zero(s: &[u8]) -> bool
    ensures { result ≡ any (eqb 0) s.now }
{
    s.contains(&0)
}

// 25: a text without a zero, which is UTF-8 and leaves room for a zero.
pub fn is_good_text(setting: Setting, value: Wanted, string: &[u8]) -> bool
    ensures { result ≡ is_good_text (setting_is no_text setting) (wanted_of value string.now) }
{
    match value {
        Wanted::Text => !has_zero(string) && is_utf8(string) && string.len() < setting.size,
        Wanted::Event(_) | Wanted::Number { .. } => true,
    }
}

// 26: does the variable lie in the window's space and wholly inside the window? No sum is built, so that none wraps.
pub fn is_inside(setting: Setting, space: u64, first: u64, length: usize) -> bool
    ensures { result ≡ inside_by setting space first length }
{
    let length = length as u64;
    match setting.address.checked_sub(first) {
        Some(before) => {
            space == setting.space && before <= length && setting.size as u64 <= length - before
        }
        None => false,
    }
}

// The cause why the variable can't be read, if there is one.
#[tactic(auto, unfolding(crate::specs::Told::read_cause))]
pub fn read_cause(setting: Setting, inside: bool) -> Option<usize>
    ensures { result ≡ read_cause setting inside }
{
    first_cause(setting.kind == FLOAT, false, false, false, false, !inside)
}
