// The numbers that a tag gives, by the codes and the amounts of its attributes.
#![tactic(auto)]

ghost use Rattle.std.specs.Prelude.{◌≡◌, [], cond, ◌≤◌, eqb};
ghost use Rattle.tally_tag.specs.Numbered.{numbers_by};
ghost use Rattle.tags_numbers.specs.Given.{Cells, Bounded, offset_by, given_in, given_by};

// A segment's origin and space, or the offset and the size of any other element; and the replication.
#[derive(Clone, Copy)]
pub struct Given {
    pub address: i64,
    pub width: u64,
    pub copies: u64,
}

// The numbers of the names of elements that are told apart, and the size of an eventid.
const SEGMENT: u8 = 4;

const EVENTID: u8 = 8;

const EVENTID_SIZE: u64 = 8;

// The numbers of attributes.
const SPACE: usize = 5;

const ORIGIN: usize = 6;

const REPLICATION: usize = 7;

const OFFSET: usize = 8;

const SIZE: usize = 9;

// The code of a value below zero.
const NEGATIVE: u8 = 2;

// An offset by its code and its amount.
fn offset_in(code: u8, amount: u64) -> i64
    requires { amount ≤ 2147483648 }
    ensures { result ≡ offset_by code amount }
{
    if code == NEGATIVE {
        return 0 - (amount as i64);
    }
    amount as i64
}

// The size of a variable; an eventid's is 8.
fn size_in(element: u8, size: u64) -> u64
    ensures { result ≡ cond (eqb element 8) 8 size }
{
    if element == EVENTID {
        EVENTID_SIZE
    } else {
        size
    }
}

// The numbers of a tag of that element.
pub fn numbers_in(element: u8, codes: &[u8; 11], amounts: &[u64; 11]) -> Given
    requires { Cells codes.now amounts.now }
    ensures value { result ≡ given_in element codes.now amounts.now }
    ensures bounds { Bounded element result }
{
    if element == SEGMENT {
        return Given {
            address: amounts[ORIGIN] as i64,
            width: amounts[SPACE],
            copies: amounts[REPLICATION],
        };
    }
    let address = offset_in(codes[OFFSET], amounts[OFFSET]);
    let width = size_in(element, amounts[SIZE]);
    Given {
        address,
        width,
        copies: amounts[REPLICATION],
    }
}

// What stands for a width that is missing: 0 for a segment's space, 1 for a size.
fn bare_width(element: u8) -> u64
    ensures { result ≡ cond (eqb element 4) 0 (cond (eqb element 8) 8 1) }
{
    if element == SEGMENT {
        0
    } else {
        size_in(element, 1)
    }
}

// The numbers of a tag of that element that has no attributes.
pub fn bare_numbers(element: u8) -> Given
    ensures value { result ≡ given_by element (numbers_by element []) }
    ensures bounds { Bounded element result }
{
    let width = bare_width(element);
    Given {
        address: 0,
        width,
        copies: 1,
    }
}
