// What a tag's attributes say, noted by their numbers as they are met: for each of the ten names the code and the amount of its first value.
#![tactic(auto)]

ghost use Rattle.std.specs.Prelude.{◌≡◌, ◌≤◌, get_or};
ghost use Rattle.rules_judge.specs.Tables.{size_in};
ghost use Rattle.tags_cells.specs.Cells.{is_first, with_code, with_amount, size_of_byte, with_exact};

use spans::blanks;
use tags_values::hold;

const SIZE: usize = 9;

// Is it the first attribute of a known name?
#[tactic(auto, unfolding(crate::specs::Cells::is_first))]
fn is_first(a: u8, codes: &[u8; 11]) -> bool
    requires { a ≤ 10 }
    ensures { result ≡ is_first a codes.now }
{
    a != 0 && codes[usize::from(a)] == 0
}

// Notes the value of an attribute of that number.
pub fn note(value: &[u8], a: u8, codes: &mut [u8; 11], amounts: &mut [u64; 11])
    requires { a ≤ 10 }
    ensures code { codes.new ≡ with_code a value.now codes.old }
    ensures amount { amounts.new ≡ with_amount a value.now codes.old amounts.old }
{
    if is_first(a, codes) {
        let held = hold(value, a);
        let i = usize::from(a);
        codes[i] = held.code;
        amounts[i] = held.amount;
    }
}

// The size that one byte says, or 0.
#[tactic(auto, unfolding(crate::specs::Cells::size_of_byte))]
fn size_of(b: u8) -> u8
    ensures value { result ≡ size_of_byte b }
    ensures bounds { result ≤ 8 }
{
    match b {
        b'1' => 1,
        b'2' => 2,
        b'4' => 4,
        b'8' => 8,
        _ => 0,
    }
}

// The size that a text says exactly, blanks at its ends aside, or 0.
fn size_within(value: &[u8]) -> u8
    ensures value { result ≡ size_in value.now }
    ensures bounds { result ≤ 8 }
{
    let at = blanks(value, 0);
    if value.len() <= at {
        return 0;
    }
    if blanks(value, at + 1) < value.len() {
        return 0;
    }
    size_of(value[at])
}

// The same; most have no blanks.
fn size_in(value: &[u8]) -> u8
    ensures value { result ≡ size_in value.now }
    ensures bounds { result ≤ 8 }
{
    match value {
        [b] => size_of(*b),
        _ => size_within(value),
    }
}

// The exact size, where the value is that of the first `size`.
#[tactic(auto, unfolding(crate::specs::Cells::with_exact))]
pub fn exact_with(value: &[u8], a: u8, codes: &[u8; 11], exact: u8) -> u8
    requires { exact ≤ 8 }
    ensures value { result ≡ with_exact a value.now codes.now exact }
    ensures bounds { result ≤ 8 }
{
    if a == 9 && codes[SIZE] == 0 {
        size_in(value)
    } else {
        exact
    }
}
