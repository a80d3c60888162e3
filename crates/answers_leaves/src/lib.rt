// Frames that ask for a single reading: the end of the content, characters, numbers, formatting, names, and the piece at a place.
#![tactic(auto)]

ghost use Rattle.std.specs.Prelude.{◌≤◌, ◌<◌, IfSome, length};

use answers_out::lines::{Line, either, ended, four, one, plain, refused, three, two};
use answers_out::{tell, words};
use formatting::is_formatting;
use names::{attribute_number, element_number};
use numbers::read_number;
use pieces::piece_at;
use pieces_attributes::next_attribute;
use pieces_cuts::{Cut, Kind};
use text::{bad_character, content_end, is_utf8};

// `end PLACE` or `refused 1 PLACE`
fn ending(s: &[u8]) -> Line
    ensures { result.count ≤ 4 }
{
    match content_end(s) {
        Ok(place) => one(words::END, place as u64),
        Err(place) => refused(1, place),
    }
}

fn place(found: Option<usize>) -> Line
    ensures { result.count ≤ 4 }
{
    match found {
        Some(place) => one(words::BAD, place as u64),
        None => plain(words::GOOD),
    }
}

// `characters good` or `characters bad PLACE`, then whether the bytes are UTF-8 at all
fn characters(s: &[u8]) -> Line
    ensures { result.count ≤ 4 }
{
    let line = place(bad_character(s));
    ended(line, either(is_utf8(s), words::UTF8, words::NOT))
}

// `number VALUE`, `number large` or `number none`
fn number(s: &[u8]) -> Line
    ensures { result.count ≤ 4 }
{
    let Some(n) = read_number(s) else {
        return plain(words::NO_NUMBER);
    };
    if n.large {
        return plain(words::LARGE);
    }
    let word = either(n.negative, words::MINUS, words::NUMBER);
    one(word, n.magnitude)
}

// `formatting yes` or `formatting no`
fn formatting(s: &[u8]) -> Line
    ensures { result.count ≤ 4 }
{
    plain(either(is_formatting(s), words::FORMATTING, words::NO_FORMATTING))
}

// `name ELEMENT ATTRIBUTE`
fn name(s: &[u8]) -> Line
    ensures { result.count ≤ 4 }
{
    let element = element_number(s);
    let attribute = attribute_number(s);
    two(words::NAME, element as u64, attribute as u64)
}

// Writes the places of name and value of each attribute from this place on.
fn attributes(s: &[u8], from: usize)
    requires { from ≤ length s.now }
{
    let mut i = from;
    while let Some(a) = next_attribute(s, i) {
        tell(four(
            words::BLANK,
            a.name as u64,
            a.behind as u64,
            a.value as u64,
            a.close as u64,
        ));
        i = a.end;
    }
}

// A start tag: its name's places, its end, its form, and its attributes' places.
fn start(s: &[u8], cut: Cut) -> Line
    requires { cut.behind ≤ length s.now }
    ensures { result.count ≤ 4 }
{
    let line = three(
        words::START,
        cut.name as u64,
        cut.behind as u64,
        cut.end as u64,
    );
    tell(ended(line, either(cut.short, words::SHORT, words::OPEN)));
    tell(plain(either(cut.refers, words::REFERS, words::PLAIN)));
    attributes(s, cut.behind);
    plain(words::NOTHING)
}

// An end tag: its name's places and its end.
fn finish(cut: Cut) -> Line
    ensures { result.count ≤ 4 }
{
    three(
        words::FINISH,
        cut.name as u64,
        cut.behind as u64,
        cut.end as u64,
    )
}

// The piece at a place of the content.
fn piece(s: &[u8], place: usize) -> Line
    requires { place < length s.now }
    ensures { result.count ≤ 4 }
{
    let cut = piece_at(s, place);
    let kind = cut.kind;
    let end = cut.end as u64;
    match kind {
        Kind::Start => start(s, cut),
        Kind::Finish => finish(cut),
        Kind::Remark => one(words::REMARK, end),
        Kind::Refer => two(words::REFER, cut.code as u64, end),
        Kind::Text => one(words::TEXT, end),
        Kind::Malformed => plain(words::MALFORMED),
        Kind::Unsupported => plain(words::UNSUPPORTED),
    }
}

// The answer to a frame `C`: the piece at a place, which is read now.
fn piece_frame(s: &[u8]) -> Option<Line>
    ensures { IfSome result (λ line. line.count ≤ 4) }
{
    let place = frames::read_number()?;
    if place < s.len() as u64 {
        Some(piece(s, place as usize))
    } else {
        None
    }
}

// The answer to a frame, by its first byte.
fn reading(first: u8, s: &[u8]) -> Option<Line>
    ensures { IfSome result (λ line. line.count ≤ 4) }
{
    match first {
        b'C' => piece_frame(s),
        b'Z' => Some(ending(s)),
        b'U' => Some(characters(s)),
        b'N' => Some(number(s)),
        b'F' => Some(formatting(s)),
        _ => Some(name(s)),
    }
}

// The answer to a frame that begins with bytes.
pub fn frame(first: u8, text: &mut [u8]) -> Option<Line>
    ensures { IfSome result (λ line. line.count ≤ 4) }
{
    let size = frames::read_part(text)?;
    reading(first, &text[..size])
}
