// A start tag, read once: where it ends, and what its attributes give.
#![tactic(auto)]

ghost use Rattle.std.specs.Prelude.{◌≡◌, [], ◌≤◌, ◌<◌, length, drop};
ghost use Rattle.cdi.specs.Lists.{any};
ghost use Rattle.cdi.specs.Faults.{least};
ghost use Rattle.cdi.specs.Pieces.{attributes, twice};
ghost use Rattle.cdi.specs.Rules.{attribute_faults};
ghost use Rattle.keys.specs.Keys.{fault_in};
ghost use Rattle.rules_judge.specs.Judging.{row_at};
ghost use Rattle.tags_cells.specs.Cells.{has_one, known_twice};
ghost use Rattle.tags_faults.specs.Told.{rules_by, faults_at};
ghost use Rattle.tags.specs.Reads.{Ends, no_tag, Says, Reads};

use keys::{NOTHING, key_of};
use pieces_twice::{is_twice_among_few, is_twice_among_many, is_twice_among_more};
use spans::{blanks, is_at};
use tags_faults::fault_of;
use tags_gather::gather;
use tags_numbers::{Given, bare_numbers, numbers_in};
use tags_wrong::{first_wrong, is_text_wrong};

// `end` is behind the tag, 0 where it is malformed; `exact` the size that it says exactly; `told` the key of the least of its attributes' faults.
#[derive(Clone, Copy)]
pub struct Tag {
    pub end: usize,
    pub short: bool,
    pub refers: bool,
    pub bare: bool,
    pub exact: u8,
    pub told: usize,
    pub given: Given,
}

#[derive(Clone, Copy)]
struct Ending {
    end: usize,
    short: bool,
}

// What stands for a number that is missing, by the attribute's number.
const AMOUNTS: [u64; 11] = [0, 0, 0, 0, 0, 0, 0, 1, 0, 1, 0];

// The end of a tag whose last attribute ends before this place, or its name.
fn end_of(s: &[u8], at: usize) -> Ending
    requires { at ≤ length s.now }
    ensures { Ends s.now at result.end result.short }
{
    let close = blanks(s, at);
    if is_at(s, close, b'>') {
        return Ending {
            end: close + 1,
            short: false,
        };
    }
    if is_at(s, close, b'/') {
        if is_at(s, close + 1, b'>') {
            return Ending {
                end: close + 2,
                short: true,
            };
        }
        return Ending {
            end: 0,
            short: false,
        };
    }
    Ending {
        end: 0,
        short: false,
    }
}

// No tag.
fn no_tag() -> Tag
    ensures { result ≡ no_tag }
{
    let given = Given {
        address: 0,
        width: 0,
        copies: 0,
    };
    Tag {
        end: 0,
        short: false,
        refers: false,
        bare: false,
        exact: 0,
        told: NOTHING,
        given,
    }
}

// Does a name stand twice among the attributes from this place to before `last`? An attribute has at least 5 bytes with the blank before it, which
// tells how many names need room. Nothing rests on that.
fn is_twice(s: &[u8], at: usize, last: usize) -> bool
    requires { (at ≤ last) × (last ≤ length s.now) }
    ensures { result ≡ twice (attributes at 0 (drop at s.now)) }
{
    if last - at < 320 {
        return is_twice_among_few(s, at);
    }
    if last - at < 5120 {
        return is_twice_among_more(s, at);
    }
    is_twice_among_many(s, at)
}

// The same, where it is known whether one of the ten names stands twice and whether a name is none of them: else no name does.
fn is_double(s: &[u8], at: usize, last: usize, again: bool, strange: bool) -> bool
    requires { (at ≤ last) × (last ≤ length s.now) × (again ≡ known_twice (attributes at 0 (drop at s.now))) × (strange ≡ any (has_one 0) (attributes at 0 (drop at s.now))) }
    ensures { result ≡ twice (attributes at 0 (drop at s.now)) }
{
    if again | strange {
        return is_twice(s, at, last);
    }
    false
}

fn wide(number: u8) -> usize
    ensures { result ≡ number }
{
    number as usize
}

// The key of a fault of that number at this place, of which 0 is none.
fn key_at(number: u8, at: usize) -> usize
    requires { (number < 128) × (at ≤ 65535) }
    ensures { fault_in result ≡ least (faults_at at number) }
{
    if number == 0 {
        return NOTHING;
    }
    key_of(wide(number), at)
}

// The number of the fault of a tag without attributes: one that must be there.
fn bare_fault(element: u8) -> u8
    ensures value { result ≡ rules_by element [] 1 }
    ensures bounds { result < 128 }
{
    if element == 1 {
        return 86;
    }
    if element == 4 {
        return 86;
    }
    if element == 7 {
        return 86;
    }
    if element == 9 {
        return 86;
    }
    0
}

// The key of the least fault of the attributes of a tag at this place, by what they say: it stands at the tag's `<`, or else at a name.
fn told(
    s: &[u8],
    at: usize,
    behind: usize,
    element: u8,
    codes: &[u8; 11],
    exact: u8,
    known: bool,
) -> usize
    requires { (at < behind) × (behind ≤ length s.now) × (length s.now ≤ 65535) × Says s.now behind element codes.now exact known }
    ensures { fault_in result ≡ least (attribute_faults at (row_at element) (attributes behind 0 (drop behind s.now))) }
{
    let number = fault_of(element, codes, exact);
    if number != 0 {
        return key_of(wide(number), at);
    }
    if known {
        if is_text_wrong(element, codes) {
            return first_wrong(s, behind, element, codes);
        }
        return NOTHING;
    }
    first_wrong(s, behind, element, codes)
}

// A tag with attributes, or with a blank or a slash behind its name.
fn attributed(s: &[u8], at: usize, behind: usize, element: u8) -> Tag
    requires { (at < behind) × (behind ≤ length s.now) × (length s.now ≤ 65535) }
    ensures { Reads s.now at behind element result }
{
    let mut codes = [0u8; 11];
    let mut amounts = AMOUNTS;
    let g = gather(s, behind, element, &mut codes, &mut amounts);
    let e = end_of(s, g.last);
    if e.end == 0 {
        return no_tag();
    }
    if is_double(s, behind, g.last, g.again, g.strange) {
        return no_tag();
    }
    let key = told(s, at, behind, element, &codes, g.exact, g.known);
    let given = numbers_in(element, &codes, &amounts);
    Tag {
        end: e.end,
        short: e.short,
        refers: g.refers,
        bare: g.count == 0,
        exact: g.exact,
        told: key,
        given,
    }
}

// The start tag at this place of an element of that number, whose name ends before `behind`.
pub fn start_tag(s: &[u8], at: usize, behind: usize, element: u8) -> Tag
    requires { (at < behind) × (behind ≤ length s.now) × (length s.now ≤ 65535) }
    ensures { Reads s.now at behind element result }
{
    if is_at(s, behind, b'>') {
        let given = bare_numbers(element);
        return Tag {
            end: behind + 1,
            short: false,
            refers: false,
            bare: true,
            exact: 1,
            told: key_at(bare_fault(element), at),
            given,
        };
    }
    attributed(s, at, behind, element)
}
