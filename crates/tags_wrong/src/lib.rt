// The attributes of a tag that are unknown or have a wrong text: the first of them, whose fault stands at its name.
#![tactic(auto)]

ghost use Rattle.std.specs.Prelude.{◌≡◌, false, ◌≤◌, ◌<◌, length, drop};
ghost use Rattle.cdi.specs.Faults.{least};
ghost use Rattle.cdi.specs.Pieces.{attributes, twice};
ghost use Rattle.cdi.specs.Rules.{names_faults};
ghost use Rattle.keys.specs.Keys.{fault_in};
ghost use Rattle.rules_judge.specs.Judging.{row_at};
ghost use Rattle.tags_faults.specs.Told.{Coded};
ghost use Rattle.tags_wrong.specs.Named.{texts_by, name_by};

use keys::{NOTHING, key_of};
use names::attribute_number;
use pieces_attributes::next_attribute;
use tags_faults::{is_among, known_to};

const NAMESPACE: usize = 1;

const SCHEMA: usize = 2;

const FORMATTING: usize = 10;

// Is a text wrong? By the codes of a tag's values; texts are those of cdi and of a float.
#[tactic(auto, unfolding(crate::specs::Named::texts_by))]
pub fn is_text_wrong(element: u8, codes: &[u8; 11]) -> bool
    ensures { result ≡ texts_by element codes.now }
{
    match element {
        1 => codes[NAMESPACE] == 87 || codes[SCHEMA] == 87,
        9 => codes[FORMATTING] == 87,
        _ => false,
    }
}

// The fault of an attribute by the code of its value: it is unknown, or its text is wrong; else 0.
#[tactic(auto, unfolding(crate::specs::Named::name_by))]
fn fault_at(known: bool, code: u8) -> u8
    ensures value { result ≡ name_by known code }
    ensures bounds { result < 128 }
{
    match (known, code) {
        (false, _) => 85,
        (true, 87) => 87,
        (true, _) => 0,
    }
}

// The fault of the first wrong attribute from this place on in a tag of that element, as a key. No name stands twice there, so that the codes are those
// of all values.
pub fn first_wrong(s: &[u8], at: usize, element: u8, codes: &[u8; 11]) -> usize
    requires { (at ≤ length s.now) × (length s.now ≤ 65535) × Coded codes.now (attributes at 0 (drop at s.now)) × (twice (attributes at 0 (drop at s.now)) ≡ false) }
    ensures { fault_in result ≡ least (names_faults (row_at element).attributes (attributes at 0 (drop at s.now))) }
{
    let set = known_to(element);
    let mut i = at;
    while let Some(a) = next_attribute(s, i) {
        let n = attribute_number(&s[a.name..a.behind]);
        let fault = fault_at(is_among(set, n), codes[usize::from(n)]);
        if fault != 0 {
            return key_of(usize::from(fault), a.name);
        }
        i = a.end;
    }
    NOTHING
}
