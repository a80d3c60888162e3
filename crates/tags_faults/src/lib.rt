// The faults of a tag's attributes against the rules of its element that stand at the tag's `<`, by the codes of their values: the number of the least,
// or 0. Those of names and texts stand at the names.
#![tactic(auto)]

ghost use Rattle.std.specs.Prelude.{◌≡◌, ◌≤◌, ◌<◌};
ghost use Rattle.tags_faults.specs.Told.{known_set, has_bit, lesser_of, own_by, needed_by, there_by, int_by, float_by, rules_by};

use keys::rank_of;

// The numbers of attributes.
const NAMESPACE: usize = 1;

const SCHEMA: usize = 2;

const FIXED: usize = 3;

const VAR: usize = 4;

const SPACE: usize = 5;

const ORIGIN: usize = 6;

const REPLICATION: usize = 7;

const OFFSET: usize = 8;

const SIZE: usize = 9;

// The attributes that each element knows, from the text itself to relation: bit n of a number is the attribute of number n.
const KNOWN: [u64; 12] = [
    0,
    0b110,
    0,
    0b1_1000,
    0b110_0000,
    0b1_1000_0000,
    0b11_0000_0000,
    0b11_0000_0000,
    0b1_0000_0000,
    0b111_0000_0000,
    0,
    0,
];

// The attributes that an element knows, as bits of a number.
pub fn known_to(element: u8) -> u64
    ensures { result ≡ known_set element }
{
    if element < 12 {
        KNOWN[usize::from(element)]
    } else {
        0
    }
}

// Is the attribute of that number among these?
pub fn is_among(set: u64, number: u8) -> bool
    requires { number ≤ 10 }
    ensures { result ≡ has_bit set number }
{
    (set >> usize::from(number)) % 2 == 1
}

// The one of two numbers of faults that comes first, of which 0 is none.
fn lesser(m: u8, n: u8) -> u8
    ensures { result ≡ lesser_of m n }
{
    if m == 0 {
        n
    } else if n == 0 {
        m
    } else if rank_of(usize::from(n)) < rank_of(usize::from(m)) {
        n
    } else {
        m
    }
}

fn least(one: u8, two: u8, three: u8) -> u8
    ensures { result ≡ lesser_of one (lesser_of two three) }
{
    lesser(one, lesser(two, three))
}

// The fault of a number that is there.
#[tactic(auto, unfolding(crate::specs::Told::own_by))]
fn own(code: u8) -> u8
    ensures { result ≡ own_by code }
{
    if code < 3 { 0 } else { code }
}

// The same of one that must be there.
#[tactic(auto, unfolding(crate::specs::Told::needed_by))]
fn needed(code: u8) -> u8
    ensures { result ≡ needed_by code }
{
    if code == 0 { 86 } else { own(code) }
}

// The fault of a text that must be there.
#[tactic(auto, unfolding(crate::specs::Told::there_by))]
fn needed_text(code: u8) -> u8
    ensures { result ≡ there_by code }
{
    if code == 0 { 86 } else { 0 }
}

// The fault of an int's size, by the exact size that its text says.
#[tactic(auto, unfolding(crate::specs::Told::int_by))]
fn int_fault(exact: u8) -> u8
    ensures { result ≡ int_by exact }
{
    if exact < 1 { 10 } else { 0 }
}

// The same of a float's.
#[tactic(auto, unfolding(crate::specs::Told::float_by))]
fn float_fault(code: u8, exact: u8) -> u8
    ensures { result ≡ float_by code exact }
{
    if code == 0 {
        86
    } else if exact < 2 {
        10
    } else {
        0
    }
}

// The attributes of cdi, of acdi, of a segment and of a group.
fn outer_fault(element: u8, codes: &[u8; 11]) -> u8
    requires { element < 6 }
    ensures { result ≡ rules_by element codes.now 0 }
{
    match element {
        1 => least(needed_text(codes[NAMESPACE]), needed_text(codes[SCHEMA]), 0),
        3 => least(own(codes[FIXED]), own(codes[VAR]), 0),
        4 => least(needed(codes[SPACE]), own(codes[ORIGIN]), 0),
        5 => least(own(codes[REPLICATION]), own(codes[OFFSET]), 0),
        _ => 0,
    }
}

// Those of an int, a string, an eventid and a float.
fn inner_fault(element: u8, codes: &[u8; 11], exact: u8) -> u8
    requires { (6 ≤ element) × (element < 10) }
    ensures { result ≡ rules_by element codes.now exact }
{
    let offset = own(codes[OFFSET]);
    match element {
        6 => least(int_fault(exact), offset, 0),
        7 => least(needed(codes[SIZE]), offset, 0),
        8 => least(offset, 0, 0),
        _ => least(float_fault(codes[SIZE], exact), offset, 0),
    }
}

// The number of the least fault of a tag of that element.
pub fn fault_of(element: u8, codes: &[u8; 11], exact: u8) -> u8
    ensures { result ≡ rules_by element codes.now exact }
{
    match element {
        0..=5 => outer_fault(element, codes),
        6..=9 => inner_fault(element, codes, exact),
        _ => 0,
    }
}
