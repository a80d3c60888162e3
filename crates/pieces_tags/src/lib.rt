// Tags. Each reader is handed the part of the content that starts with the tag.
#![tactic(auto)]

ghost use Rattle.std.specs.Prelude.{◌≡◌, ◌≤◌, length, drop};
ghost use Rattle.cdi.specs.Pieces.{attributes, twice, or_malformed, start_tag, end_tag};
ghost use Rattle.pieces_cuts.specs.Places.{Closes};
ghost use Rattle.pieces_cuts.specs.Cuts.{tag_of, Cuts};

use pieces_attributes::{has_reference, next_attribute};
use pieces_cuts::cuts::malformed;
use pieces_cuts::names::name_end;
use pieces_cuts::{Cut, Kind};
use pieces_listed::is_plainly_twice;
use pieces_twice::{is_twice_among_few, is_twice_among_many, is_twice_among_more};
use scan::{Class, begins_at, span};

// An end tag: s begins with its `</`.
pub fn end_tag(s: &[u8]) -> Cut
    requires { 2 ≤ length s.now }
    ensures { Cuts s.now 0 (or_malformed (end_tag (drop 2 s.now))) result }
{
    let behind = name_end(s, 2);
    if behind == 2 {
        return malformed(s);
    }
    let close = span(s, behind, Class::Blank);
    if begins_at(s, close, b">") {
        return Cut {
            kind: Kind::Finish,
            name: 2,
            behind,
            end: close + 1,
            solid: 0,
            code: 0,
            short: false,
            refers: false,
        };
    }
    malformed(s)
}

// The place behind the last attribute from this place on, or this place where there is none.
fn attributes_end(s: &[u8], at: usize) -> usize
    requires { at ≤ length s.now }
    ensures { Closes s.now at result }
{
    let mut i = at;
    while let Some(a) = next_attribute(s, i) {
        i = a.end;
    }
    i
}

// Have the attributes from this place to before `last` room for so many that a table of their names pays? 8 have at least 40 bytes. Nothing rests on it.
fn is_wide(at: usize, last: usize) -> bool
    requires { at ≤ last }
{
    40 <= last - at
}

// Does a name stand twice among the attributes from this place to before `last`? An attribute has at least 5 bytes with the blank before it, which
// tells how many names need room. Nothing rests on that.
fn is_twice(s: &[u8], at: usize, last: usize) -> bool
    requires { (at ≤ last) × (last ≤ length s.now) }
    ensures { result ≡ twice (attributes at 0 (drop at s.now)) }
{
    if last - at < 320 {
        return is_twice_among_few(s, at);
    }
    if last - at < 5120 {
        return is_twice_among_more(s, at);
    }
    is_twice_among_many(s, at)
}

// A start tag that may have many attributes, whose name ends before `behind` and the last of them before `last`, and which closes before `end`, in the short
// form or not. It stands by itself since tables of names take room.
fn wide_tag(s: &[u8], behind: usize, last: usize, end: usize, short: bool) -> Cut
    requires { (Closes s.now behind last) × (1 ≤ behind) × (behind ≤ end) × (1 ≤ end) × (end ≤ length s.now) }
    ensures { Cuts s.now 0 (or_malformed (tag_of s.now behind end short)) result }
{
    if is_twice(s, behind, last) {
        return malformed(s);
    }
    let refers = has_reference(s, behind);
    Cut {
        kind: Kind::Start,
        name: 1,
        behind,
        end,
        solid: 0,
        code: 0,
        short,
        refers,
    }
}

// The same of few attributes, the last of which ends before `last`, or of none.
fn tag(s: &[u8], behind: usize, last: usize, end: usize, short: bool) -> Cut
    requires { (Closes s.now behind last) × (1 ≤ behind) × (behind ≤ end) × (1 ≤ end) × (end ≤ length s.now) }
    ensures { Cuts s.now 0 (or_malformed (tag_of s.now behind end short)) result }
{
    if last == behind {
        return Cut {
            kind: Kind::Start,
            name: 1,
            behind,
            end,
            solid: 0,
            code: 0,
            short,
            refers: false,
        };
    }
    if is_plainly_twice(s, behind) {
        return malformed(s);
    }
    let refers = has_reference(s, behind);
    Cut {
        kind: Kind::Start,
        name: 1,
        behind,
        end,
        solid: 0,
        code: 0,
        short,
        refers,
    }
}

// A start tag: s begins with its `<`.
pub fn start_tag(s: &[u8]) -> Cut
    requires { 1 ≤ length s.now }
    ensures { Cuts s.now 0 (or_malformed (start_tag 1 (drop 1 s.now))) result }
{
    let behind = name_end(s, 1);
    if behind == 1 {
        return malformed(s);
    }
    let last = attributes_end(s, behind);
    let close = span(s, last, Class::Blank);
    let wide = is_wide(behind, last);
    if begins_at(s, close, b">") {
        if wide {
            return wide_tag(s, behind, last, close + 1, false);
        }
        return tag(s, behind, last, close + 1, false);
    }
    if begins_at(s, close, b"/>") {
        if wide {
            return wide_tag(s, behind, last, close + 2, true);
        }
        return tag(s, behind, last, close + 2, true);
    }
    malformed(s)
}
