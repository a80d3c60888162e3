// What an attribute's value is by the attribute's number: a code, which is 1 for a good value, 2 for a good one below zero, else the number of its
// fault, and the amount that it says. A size is held against the range of a string's.
#![tactic(auto)]

ghost use Rattle.std.specs.Prelude.{◌≡◌, true, false, cond, ◌≤◌, ◌<◌, pos};
ghost use Rattle.cdi.specs.Numbers.{within};
ghost use Rattle.numbers.specs.Held.{Judges};
ghost use Rattle.tags_values.specs.Codes.{textual, low_at, high_at, amount_for, code_of, amount_of};

use formatting::is_formatting;
use numbers::{Signed, read_number};
use scan::same;
use terms::{MOST_DOWN, MOST_SIGNED, MOST_SPACE, MOST_TEXT};

// A code and no Result: a tag's cells hold codes (`tags_cells`), and there is an amount beside a fault too.
#[derive(Clone, Copy)]
pub struct Held {
    pub code: u8,
    pub amount: u64,
}

// The numbers of the attributes that are told apart.
const FIRST_NUMBER: u8 = 3;

const REPLICATION: u8 = 7;

const OFFSET: u8 = 8;

const SIZE: u8 = 9;

const FORMATTING: u8 = 10;

// What stands for a number that is missing; but for an offset's, the lower end of its range.
#[tactic(auto, unfolding(crate::specs::Codes::amount_for))]
pub fn amount_for(a: u8) -> u64
    ensures value { result ≡ amount_for a }
    ensures bounds { result ≤ 1 }
{
    match a {
        REPLICATION | SIZE => 1,
        _ => 0,
    }
}

// The upper end of its range.
#[tactic(auto, unfolding(crate::specs::Codes::high_at))]
fn highest(a: u8) -> u64
    ensures a_value { high_at a ≡ pos result }
    ensures bounds { result ≤ 2147483647 }
{
    match a {
        0..=5 => MOST_SPACE,
        SIZE => MOST_TEXT,
        _ => MOST_SIGNED,
    }
}

// Does the number lie in the attribute's range?
fn is_in_range(n: Signed, a: u8) -> bool
    ensures { Judges n (within (low_at a) (high_at a)) result }
{
    if n.large {
        return false;
    }
    if n.negative {
        return (a == OFFSET) & (n.magnitude <= MOST_DOWN);
    }
    (amount_for(a) <= n.magnitude) & (n.magnitude <= highest(a))
}

fn good_code(negative: bool) -> u8
    ensures { result ≡ cond negative 2 1 }
{
    if negative { 2 } else { 1 }
}

// Must the value be a text, and no number?
#[tactic(auto, unfolding(crate::specs::Codes::textual))]
fn is_textual(a: u8) -> bool
    ensures { result ≡ textual a }
{
    a < FIRST_NUMBER || a == FORMATTING
}

// A value that must be a number.
fn number_held(value: &[u8], a: u8) -> Held
    requires { (1 ≤ a) × (a ≤ 10) × (textual a ≡ false) }
    ensures { (result.code ≡ code_of a value.now) × (result.amount ≡ amount_of a value.now) }
{
    let Some(n) = read_number(value) else {
        return Held {
            code: 9,
            amount: amount_for(a),
        };
    };
    if is_in_range(n, a) {
        Held {
            code: good_code(n.negative),
            amount: n.magnitude,
        }
    } else {
        Held {
            code: 10,
            amount: amount_for(a),
        }
    }
}

// Is it the text that it must be?
fn is_text(value: &[u8], a: u8) -> bool
    requires { (1 ≤ a) × (a ≤ 10) × (textual a ≡ true) }
    ensures { code_of a value.now ≡ cond result 1 87 }
{
    match a {
        1 => same(value, b"http://www.w3.org/2001/XMLSchema-instance"),
        2 => same(value, b"http://openlcb.org/schema/cdi/1/3/cdi.xsd"),
        _ => is_formatting(value),
    }
}

// A value that must be a text.
fn text_held(value: &[u8], a: u8) -> Held
    requires { (1 ≤ a) × (a ≤ 10) × (textual a ≡ true) }
    ensures { (result.code ≡ code_of a value.now) × (result.amount ≡ amount_of a value.now) }
{
    Held {
        code: if is_text(value, a) { 1 } else { 87 },
        amount: 0,
    }
}

// The value of the attribute of that number.
pub fn hold(value: &[u8], a: u8) -> Held
    requires { (1 ≤ a) × (a ≤ 10) }
    ensures { (result.code ≡ code_of a value.now) × (result.amount ≡ amount_of a value.now) }
{
    if is_textual(a) {
        text_held(value, a)
    } else {
        number_held(value, a)
    }
}
