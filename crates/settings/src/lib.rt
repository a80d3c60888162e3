// What the text says of one setting, asked by the place in its record: its content, a child of it, and the number in that child.
#![tactic(auto)]

ghost use Rattle.std.specs.Prelude.{◌≡◌, true, ◌≤◌, ◌<◌, length};
ghost use Rattle.cdi.specs.Lists.{is_some};
ghost use Rattle.cdi.specs.Access.{content_at, child_of};
ghost use Rattle.numbers.specs.Held.{number_of};
ghost use Rattle.levels.specs.Ahead.{here};
ghost use Rattle.children.specs.Siblings.{nodes_in, Inside};
ghost use Rattle.settings.specs.Contents.{content_in};
ghost use Rattle.settings.specs.Limits.{own_in, child_number};

use children::{Part, content_of, part_of};
use contents::own_number;
use numbers::Signed;
use pieces::piece_at;

// The content of the element that stands at this place of a tree, which is that of the text from another place on: the tag is cut again there.
pub fn content_at(s: &[u8], from: usize, place: usize) -> Part
    requires { (from ≤ length s.now) × (place < length s.now) × (is_some (content_at place (here s.now from)) ≡ true) }
    ensures is { nodes_in s.now result ≡ content_at place (here s.now from) }
    ensures inside { Inside s.now result }
{
    part_of(piece_at(s, place))
}

// The number that a content is.
fn number_in(s: &[u8], part: Part) -> Option<Signed>
    requires { Inside s.now part }
    ensures { result ≡ number_of (own_in (nodes_in s.now part)) }
{
    match part {
        Part::From(at) => own_number(s, at),
        _ => None,
    }
}

// The content of the child of this name.
pub fn child_in(s: &[u8], part: Part, name: &[u8]) -> Part
    requires { Inside s.now part }
    ensures is { nodes_in s.now result ≡ child_of name.now (content_in s.now part) }
    ensures inside { Inside s.now result }
{
    match part {
        Part::From(at) => content_of(s, at, name),
        _ => Part::Missing,
    }
}

// The number that the child of this name is: a bound of an int.
pub fn child_number(s: &[u8], part: Part, name: &[u8]) -> Option<Signed>
    requires { Inside s.now part }
    ensures { result ≡ number_of (child_number name.now (nodes_in s.now part)) }
{
    number_in(s, child_in(s, part, name))
}
