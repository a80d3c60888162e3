// Numbers: blanks or none, an optional plus or minus, one or more decimal digits, blanks or none, and nothing else. They are read from any bytes.
#![tactic(auto)]

ghost use Rattle.std.specs.Prelude.{◌≡◌, ◌-◌, ◌≤◌, length};
ghost use Rattle.cdi.specs.Lists.{shorn};
ghost use Rattle.cdi.specs.Pieces.{blank};
ghost use Rattle.cdi.specs.Numbers.{number, digits as digits_in};
ghost use Rattle.cdi.specs.Values.{with_sign};
ghost use Rattle.numbers.specs.Held.{held, one_more, digits_of, number_of, minus_of, nearest};
ghost use Rattle.numbers.specs.Ends.{ended_by, behind_sign, Starts};

use scan::{byte_at, is_digit};
use spans::{blanks, is_at};

// A number: its sign and its magnitude. A magnitude that needs more than 64 bits is large, and 0 stands in its place.
#[derive(Clone, Copy)]
pub struct Signed {
    pub negative: bool,
    pub magnitude: u64,
    pub large: bool,
}

// The numbers from a lower bound, which may be negative, to an upper one.
#[derive(Clone, Copy)]
pub struct Range {
    pub negative: bool,
    pub low: u64,
    pub high: u64,
}

// The largest magnitude of 64 bits.
const MOST: u64 = 0xFFFF_FFFF_FFFF_FFFF;

// The number of that sign and magnitude.
pub fn with_sign(negative: bool, magnitude: u64) -> Signed
    ensures value { result ≡ held negative magnitude }
    ensures meaning { nearest result ≡ with_sign negative magnitude }
{
    Signed {
        negative,
        magnitude,
        large: false,
    }
}

// A digit's value; 0 for what stands below the digits.
fn value_of(b: u8) -> u64
    ensures { (result ≡ b - 48) × (result ≤ 255) }
{
    u64::from(b.saturating_sub(b'0'))
}

// The number with one digit more.
fn one_more(n: Signed, b: u8) -> Signed
    ensures { result ≡ one_more n b }
{
    if n.large {
        return n;
    }
    let d = value_of(b);
    if n.magnitude <= (MOST - d) / 10 {
        return with_sign(n.negative, n.magnitude * 10 + d);
    }
    Signed {
        negative: n.negative,
        magnitude: 0,
        large: true,
    }
}

// The number of the digits before a place, where there are any and only blanks stand from there on.
fn ended(s: &[u8], at: usize, n: Signed) -> Option<Signed>
    requires { at ≤ length s.now }
    ensures { result ≡ ended_by s.now at n }
{
    if at != 0 && blanks(s, at) == s.len() {
        Some(n)
    } else {
        None
    }
}

// The number without a sign that these bytes are, blanks at the end aside.
fn digits(s: &[u8]) -> Option<Signed>
    ensures { result ≡ digits_of (digits_in (shorn blank s.now)) }
{
    let mut n = with_sign(false, 0);
    for (i, b) in s.iter().enumerate() {
        if !is_digit(*b) {
            return ended(s, i, n);
        }
        n = one_more(n, *b);
    }
    if s.is_empty() { None } else { Some(n) }
}

// The number with a minus; minus zero is zero.
fn minus(n: Signed) -> Signed
    ensures { result ≡ minus_of n }
{
    Signed {
        negative: n.large || n.magnitude != 0,
        magnitude: n.magnitude,
        large: n.large,
    }
}

// The place behind the sign that stands at this place, if one does.
fn behind_sign(s: &[u8], at: usize) -> usize
    requires { at ≤ length s.now }
    ensures value { result ≡ behind_sign s.now at }
    ensures bounds { result ≤ length s.now }
{
    match s.get(at) {
        Some(b'-' | b'+') => at + 1,
        _ => at,
    }
}

// Where the digits of a number begin, and whether a minus stands before them.
#[derive(Clone, Copy)]
struct Start {
    at: usize,
    minus: bool,
}

// Behind the blanks and the sign at the front. Most numbers begin with a digit.
fn start_of(value: &[u8]) -> Start
    ensures starts { Starts value.now result.at result.minus }
    ensures bounds { result.at ≤ length value.now }
{
    if is_digit(byte_at(value, 0)) {
        return Start {
            at: 0,
            minus: false,
        };
    }
    let from = blanks(value, 0);
    Start {
        at: behind_sign(value, from),
        minus: is_at(value, from, b'-'),
    }
}

// The number that these bytes are, if they are one.
pub fn read_number(value: &[u8]) -> Option<Signed>
    ensures { result ≡ number_of (number value.now) }
{
    let start = start_of(value);
    let n = digits(&value[start.at..])?;
    Some(if start.minus { minus(n) } else { n })
}
