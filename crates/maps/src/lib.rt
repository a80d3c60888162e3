// A map's properties: whether one of them equals a value, an integer by number, a text by its decoded bytes. A place stands for what is still to come at
// its level.
#![tactic(auto)]

ghost use Rattle.std.specs.Prelude.{◌≡◌, false, ◌≤◌, length};
ghost use Rattle.cdi.specs.Lists.{given, any};
ghost use Rattle.cdi.specs.Access.{equals, properties};
ghost use Rattle.pieces_cuts.specs.Cuts.{Stands};
ghost use Rattle.pieces_cuts.specs.declared.Kind.TheVariants.{Start};
ghost use Rattle.levels.specs.Ahead.{name_in, here};
ghost use Rattle.children.specs.Siblings.{ahead, InLevel, content_of, nodes_in, Inside};
ghost use Rattle.maps.specs.Matches.{wanted_of, match_of, no_nodes};

use children::{Part, Placed, after, content_of, is_named, next_child};
use contents::{is_decoded, own_number};
use numbers_order::is_equal;

// What a property is to equal: an integer, an event ID, which equals none, or the text that is handed in beside it.
#[derive(Clone, Copy)]
pub enum Wanted {
    Number { negative: bool, magnitude: u64 },
    Event(u64),
    Text,
}

// Does the content from this place on equal it?
fn is_content(s: &[u8], at: usize, wanted: Wanted, text: &[u8]) -> bool
    requires { InLevel s.now at }
    ensures { result ≡ equals (wanted_of wanted text.now) (here s.now at) }
{
    match wanted {
        Wanted::Text => is_decoded(s, at, text),
        Wanted::Event(_) => false,
        Wanted::Number {
            negative,
            magnitude,
        } => match own_number(s, at) {
            Some(n) => is_equal(n, negative, magnitude),
            None => false,
        },
    }
}

// Does an empty content equal it?
fn is_empty(wanted: Wanted, text: &[u8]) -> bool
    ensures { result ≡ equals (wanted_of wanted text.now) no_nodes }
{
    match wanted {
        Wanted::Text => text.is_empty(),
        _ => false,
    }
}

// Does a property of this content equal it?
fn is_property(s: &[u8], part: Part, wanted: Wanted, text: &[u8]) -> bool
    requires { Inside s.now part }
    ensures { result ≡ given (nodes_in s.now part) false (equals (wanted_of wanted text.now)) }
{
    match part {
        Part::Missing => false,
        Part::Empty => is_empty(wanted, text),
        Part::From(at) => is_content(s, at, wanted, text),
    }
}

// Is the element with this start tag a relation whose property equals it?
fn is_match(s: &[u8], child: Placed, wanted: Wanted, text: &[u8]) -> bool
    requires { (Stands s.now child.place child.cut) × (child.cut.kind ≡ Start) × (2 ≤ length (ahead s.now child.place)) }
    ensures { result ≡ match_of (equals (wanted_of wanted text.now)) (name_in s.now child.cut) (content_of s.now child.cut) }
{
    is_named(s, child, b"relation")
        && !child.cut.short
        && is_property(s, content_of(s, child.cut.end, b"property"), wanted, text)
}

// Does one of the properties at the level of this place, which is in a map, equal it?
pub fn is_listed(s: &[u8], at: usize, wanted: Wanted, text: &[u8]) -> bool
    requires { InLevel s.now at }
    ensures { result ≡ any (equals (wanted_of wanted text.now)) (properties (here s.now at)) }
{
    let mut i = at;
    while let Some(child) = next_child(s, i) {
        let end = after(s, child);
        if is_match(s, child, wanted, text) {
            return true;
        }
        i = end;
    }
    false
}
