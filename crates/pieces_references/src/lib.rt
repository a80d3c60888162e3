// References. Each reader is handed the part of the content that starts with the reference.
#![tactic(auto)]

ghost use Rattle.std.specs.Prelude.{◌≡◌, ◌≤◌, ◌<◌, length, drop};
ghost use Rattle.cdi.specs.Pieces.{or_malformed, numbered as numbered_in, reference as reference_of};
ghost use Rattle.scan.specs.Spans.{of_class};
ghost use Rattle.pieces_characters.specs.Characters.{digit_in, value_in, by_number};
ghost use Rattle.pieces_cuts.specs.Cuts.{Cuts};

use pieces_characters::number_of;
use pieces_cuts::Cut;
use pieces_cuts::cuts::{character, malformed};
use scan::{Class, begins_at, span};
use text_characters::is_char;

// The digits, hexadecimal or decimal.
fn class_of(hex: bool) -> Class
    ensures { of_class result ≡ digit_in hex }
{
    if hex {
        return Class::Hexadecimal;
    }
    Class::Decimal
}

// A reference by number, whose digits begin at this place.
fn numbered(s: &[u8], at: usize, hex: bool) -> Cut
    requires { (0 < length s.now) × (at ≤ length s.now) }
    ensures { Cuts s.now 0 (or_malformed (numbered_in (digit_in hex) (value_in hex) (drop at s.now))) result }
{
    let class = class_of(hex);
    let end = span(s, at, class);
    if end == at {
        return malformed(s);
    }
    if begins_at(s, end, b";") {
        let code = number_of(hex, &s[at..end]);
        if is_char(code) {
            return character(s, code, end + 1);
        }
        return malformed(s);
    }
    malformed(s)
}

// What begins with `&` and no name of a character.
fn by_number(s: &[u8]) -> Cut
    requires { 1 ≤ length s.now }
    ensures { Cuts s.now 0 (or_malformed (by_number (drop 1 s.now))) result }
{
    if begins_at(s, 1, b"#x") {
        return numbered(s, 3, true);
    }
    if begins_at(s, 1, b"#") {
        return numbered(s, 2, false);
    }
    malformed(s)
}

// A reference: s begins with its `&`.
pub fn reference(s: &[u8]) -> Cut
    requires { 1 ≤ length s.now }
    ensures { Cuts s.now 0 (or_malformed (reference_of (drop 1 s.now))) result }
{
    if begins_at(s, 1, b"lt;") {
        return character(s, 60, 4);
    }
    if begins_at(s, 1, b"gt;") {
        return character(s, 62, 4);
    }
    if begins_at(s, 1, b"amp;") {
        return character(s, 38, 5);
    }
    if begins_at(s, 1, b"quot;") {
        return character(s, 34, 6);
    }
    if begins_at(s, 1, b"apos;") {
        return character(s, 39, 6);
    }
    by_number(s)
}
