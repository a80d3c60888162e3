// The text and its end: where the content ends, whether it is all characters that are allowed, and whether it begins with the first line.
#![tactic(auto)]

ghost use Rattle.std.specs.Prelude.{◌≡◌, ◌≤◌, min, length, drop, MatchOption};
ghost use Rattle.cdi.specs.Lists.{begins};
ghost use Rattle.cdi.specs.Text.{character_at, bad_from, allowed, mark, bad_character, is_utf8, first_line};
ghost use Rattle.text.specs.Answers.{end_answer, end_in, ending, Known, place_of, of_set};
ghost use Rattle.text_runs.specs.Runs.{plain, nonzero, AllOf};
ghost use Rattle.text_characters.specs.Answers.{width_in};

use terms::TEXT_LIMIT;
use text_characters::{Character, character_at, is_between, is_char};
use text_runs::{nonzero_run, plain_run, starts_run};

// The zero that ends the content stands before this place.
const LIMIT: usize = TEXT_LIMIT;

// The characters of content, or all of UTF-8. (An enum, since the definition `of_set`, which contracts name, goes by its cases.)
#[derive(Clone, Copy)]
pub enum Set {
    Allowed,
    Any,
}

// The end of the content, which is the place of the zero or that of refusal 1, and a place up to which all bytes are characters by themselves, so that a check of characters may begin there.
#[derive(Clone, Copy)]
pub struct Examined {
    pub end: Result<usize, usize>,
    pub run: usize,
}

// How many bytes may hold the content and its zero.
fn most_of(length: usize) -> usize
    ensures { (result ≡ min length 65536) × (result ≤ length) }
{
    length.min(LIMIT)
}

// The first zero of the part, of which no byte before this place is zero.
fn zero_behind(part: &[u8], at: usize) -> Result<usize, usize>
    requires { (at ≤ length part.now) × AllOf nonzero part.now 0 at }
    ensures { end_answer result ≡ end_in part.now }
{
    let mut i = at;
    // no `for`: a run of bytes is passed at a step
    while i < part.len() {
        if part[i] == 0 {
            return Ok(i);
        }
        i = nonzero_run(part, i + 1);
    }
    Err(i)
}

// Where the content ends, and how far its characters are known on the way there.
pub fn examine(text: &[u8]) -> Examined
    ensures end { end_answer result.end ≡ ending text.now }
    ensures run { Known text.now result.end result.run }
{
    let most = most_of(text.len());
    let run = plain_run(&text[0..most], 0);
    let end = zero_behind(&text[0..most], run);
    Examined { end, run }
}

// Where the content ends: at the first zero, if that stands early enough, or else the place of refusal 1.
pub fn content_end(text: &[u8]) -> Result<usize, usize>
    ensures { end_answer result ≡ ending text.now }
{
    examine(text).end
}

// May it stand in the content?
fn is_allowed(c: u32) -> bool
    ensures { result ≡ allowed c }
{
    is_char(c) && c != 13
}

#[tactic(auto, unfolding(cdi::specs::Text::any_character, crate::specs::Answers::of_set))]
fn is_in(set: Set, c: u32) -> bool
    ensures { result ≡ of_set set c }
{
    match set {
        Set::Allowed => is_allowed(c),
        Set::Any => true,
    }
}

// How many bytes the character of the set takes that stands at a place. Most are from the space to U+D7FF, which both sets have.
fn width_at(s: &[u8], at: usize, set: Set) -> Option<usize>
    ensures { MatchOption result (width_in (of_set set) (character_at (drop at s.now)) ≡ 0) (λ w. (w ≡ width_in (of_set set) (character_at (drop at s.now))) × (1 ≤ w) × (w ≤ 4)) }
{
    let Character { code, width } = character_at(s, at)?;
    if is_between(0x20, 0xD7FF, code) || is_in(set, code) {
        Some(width)
    } else {
        None
    }
}

// The first place where no character of the set stands. All bytes before this place are characters by themselves.
fn first_bad(s: &[u8], set: Set, at: usize) -> Option<usize>
    requires { (at ≤ length s.now) × AllOf plain s.now 0 at }
    ensures { place_of result ≡ bad_from (of_set set) 0 0 s.now }
{
    let mut i = at;
    // no `for`: a run or a character of several bytes is passed at a step
    while i < s.len() {
        if starts_run(s[i]) {
            i = plain_run(s, i + 1);
        } else {
            let Some(width) = width_at(s, i, set) else {
                return Some(i);
            };
            i += width;
        }
    }
    None
}

// Does the content begin with a byte-order mark? Its first byte tells most that don't.
fn is_marked(content: &[u8]) -> bool
    ensures { result ≡ begins mark content.now }
{
    scan::byte_at(content, 0) == 239 && scan::begins_at(content, 0, b"\xEF\xBB\xBF")
}

// The first place where no allowed character stands, that of a byte-order mark at the front included, where all bytes before this place are
// characters by themselves.
pub fn bad_behind(content: &[u8], at: usize) -> Option<usize>
    requires { (at ≤ length content.now) × AllOf plain content.now 0 at }
    ensures { place_of result ≡ bad_character content.now }
{
    if is_marked(content) {
        return Some(0);
    }
    first_bad(content, Set::Allowed, at)
}

// The same from the front: refusal 2.
pub fn bad_character(content: &[u8]) -> Option<usize>
    ensures { place_of result ≡ bad_character content.now }
{
    bad_behind(content, 0)
}

// Is it UTF-8?
pub fn is_utf8(s: &[u8]) -> bool
    ensures { result ≡ is_utf8 s.now }
{
    first_bad(s, Set::Any, 0).is_none()
}

// Does the content begin with the first line? If not: refusal 3.
pub fn is_opening(content: &[u8]) -> bool
    ensures { result ≡ begins first_line content.now }
{
    scan::begins_at(content, 0, b"<?xml version=\"1.0\"?>\n")
}
