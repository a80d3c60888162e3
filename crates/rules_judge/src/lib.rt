// No code: what is known of an element while its content is read, as types, with the definitions and laws of the table of elements.
#![tactic(auto)]

use refusals::Refusal;
use terms::Whole;

// What an element's content has said as a number: nothing yet, no number, one out of -2^63 to 2^64 - 1, or its value.
#[derive(Clone, Copy)]
pub enum Said {
    Silent,
    No,
    Large,
    Value(Whole),
}

// A bound of an int, where it stands.
#[derive(Clone, Copy)]
pub struct Bound {
    pub there: bool,
    pub place: usize,
    pub value: Whole,
}

// What is known of an element while its content is read. `least` is the least fault so far, `row` the element's number, 0 for the text itself, 24 for
// an element whose content isn't judged; `last` is the last entry of the row that a child has had, counted from 1.
#[derive(Clone, Copy)]
pub struct Judge {
    pub least: Option<Refusal>,
    pub row: u8,
    pub numeric: bool,
    pub last: u8,
    pub one: bool,
    pub two: bool,
    pub said: Said,
    pub low: Bound,
    pub high: Bound,
    pub sound: bool,
}
