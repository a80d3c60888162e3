// The attributes of a tag, by their places. They begin behind its name.
#![tactic(auto)]

ghost use Rattle.std.specs.Prelude.{◌≡◌, ◌≤◌, length, drop};
ghost use Rattle.cdi.specs.Lists.{any};
ghost use Rattle.cdi.specs.Pieces.{blank, is_quote, attributes, bears};
ghost use Rattle.cdi.specs.Markup.{refers};
ghost use Rattle.scan.specs.Spans.{Span};
ghost use Rattle.pieces_attributes.specs.Found.{Value, Placed, Follows};

use pieces_cuts::names::name_end;
use pieces_cuts::places::Attribute;
use scan::{begins_at, holds, same};
use spans::value_rest;

// The place behind the blanks that stand at this place. It isn't compiled into its callers, whose many other numbers would leave its loop no register:
// long blanks took twice as long.
#[inline(never)]
fn blanks(s: &[u8], at: usize) -> usize
    requires { at ≤ length s.now }
    ensures { Span blank s.now at result }
{
    spans::blanks(s, at)
}

// Does a value stand in this quote?
fn is_quote(b: u8) -> bool
    ensures { result ≡ is_quote b }
{
    b == 34 || b == 39
}

// The place behind the value whose quote stands at this place.
fn value_end(s: &[u8], at: usize) -> Option<usize>
    requires { at ≤ length s.now }
    ensures { Value s.now at result }
{
    if s.len() <= at {
        return None;
    }
    let quote = s[at];
    if !is_quote(quote) {
        return None;
    }
    let close = value_rest(s, at + 1, quote);
    if s.len() <= close || s[close] != quote {
        return None;
    }
    Some(close + 1)
}

// The attribute whose name stands at this place.
fn attribute_at(s: &[u8], at: usize) -> Option<Attribute>
    requires { at ≤ length s.now }
    ensures { Placed s.now at result }
{
    let behind = name_end(s, at);
    if behind == at {
        return None;
    }
    let equals = blanks(s, behind);
    if !begins_at(s, equals, b"=") {
        return None;
    }
    let quote = blanks(s, equals + 1);
    let end = value_end(s, quote)?;
    Some(Attribute {
        name: at,
        behind,
        value: quote + 1,
        close: end - 1,
        end,
    })
}

// The next attribute from this place on, which is behind the tag's name or behind an attribute.
pub fn next_attribute(s: &[u8], at: usize) -> Option<Attribute>
    requires { at ≤ length s.now }
    ensures { Follows s.now at result }
{
    let name = blanks(s, at);
    if name == at {
        return None;
    }
    attribute_at(s, name)
}

// Has one of the attributes from this place on that name?
pub fn is_named(s: &[u8], at: usize, name: &[u8]) -> bool
    requires { at ≤ length s.now }
    ensures { result ≡ any (bears name.now) (attributes at 0 (drop at s.now)) }
{
    let mut i = at;
    while let Some(a) = next_attribute(s, i) {
        if same(name, &s[a.name..a.behind]) {
            return true;
        }
        i = a.end;
    }
    false
}

// Has one of the attributes from this place on a `&` in its value?
pub fn has_reference(s: &[u8], at: usize) -> bool
    requires { at ≤ length s.now }
    ensures { result ≡ refers (attributes at 0 (drop at s.now)) }
{
    let mut i = at;
    while let Some(a) = next_attribute(s, i) {
        if holds(&s[a.value..a.close], b'&') {
            return true;
        }
        i = a.end;
    }
    false
}
