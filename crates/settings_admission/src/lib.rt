// A setting's map: whether it has one, and whether a value is among the map's properties.
#![tactic(auto)]

ghost use Rattle.std.specs.Prelude.{◌≡◌, true};
ghost use Rattle.cdi.specs.Lists.{ascii, given, any};
ghost use Rattle.cdi.specs.Access.{child_of, properties, has_map, equals};
ghost use Rattle.children.specs.Siblings.{Inside};
ghost use Rattle.maps.specs.Matches.{wanted_of};
ghost use Rattle.settings.specs.Contents.{content_in};

use children::Part;
use maps::{Wanted, is_listed};
use settings::child_in;

// Is there a map in this content?
pub fn has_map(s: &[u8], part: Part) -> bool
    requires { Inside s.now part }
    ensures { result ≡ has_map (content_in s.now part) }
{
    !matches!(child_in(s, part, b"map"), Part::Missing)
}

// Is there no map in this content, or does one of the map's properties equal the value?
pub fn is_admitted(s: &[u8], part: Part, wanted: Wanted, text: &[u8]) -> bool
    requires { Inside s.now part }
    ensures { result ≡ given (child_of (ascii "map") (content_in s.now part)) true (λ m. any (equals (wanted_of wanted text.now)) (properties m)) }
{
    match child_in(s, part, b"map") {
        Part::Missing => true,
        Part::Empty => false,
        Part::From(at) => is_listed(s, at, wanted, text),
    }
}
