// Names: where the name that stands at a place ends.

ghost use Rattle.std.specs.Prelude.{◌≤◌, length};
ghost use Rattle.pieces_cuts.specs.Places.{Name};

use scan::is_name_start;
use spans::name_rest;

// The place behind the name that stands at this place, or this place where none does.
pub fn name_end(s: &[u8], at: usize) -> usize
    requires { at ≤ length s.now }
    ensures { Name s.now at result }
{
    if s.len() <= at {
        return at;
    }
    if is_name_start(s[at]) {
        return name_rest(s, at + 1);
    }
    at
}
