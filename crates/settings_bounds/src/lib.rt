// An int's sign and bounds, by its content and its size. Bounds may be any numbers.
#![tactic(auto)]

ghost use Rattle.std.specs.Prelude.{◌≡◌, ◌≤◌};
ghost use Rattle.cdi.specs.Lists.{ascii};
ghost use Rattle.cdi.specs.Numbers.{within};
ghost use Rattle.cdi.specs.Rules.{bound_of, is_signed, largest, bounds_of};
ghost use Rattle.cdi.specs.Values.{with_sign};
ghost use Rattle.numbers.specs.Held.{signed_of};
ghost use Rattle.children.specs.Siblings.{Inside};
ghost use Rattle.settings.specs.Contents.{content_in};
ghost use Rattle.settings.specs.Limits.{below_zero, low_of, high_of};

use children::Part;
use numbers::{Signed, with_sign};
use numbers_order::is_at_most;
use rules_bounds::range_of;
use settings::child_number;

// Is it a number below zero?
fn is_below_zero(number: Option<Signed>) -> bool
    ensures { result ≡ below_zero number }
{
    number.is_some_and(|n| n.negative)
}

// Is the int with this content signed? It is exactly if min is there and below zero.
pub fn is_signed(s: &[u8], part: Part) -> bool
    requires { Inside s.now part }
    ensures { result ≡ is_signed (bound_of (ascii "min") (content_in s.now part)) }
{
    is_below_zero(child_number(s, part, b"min"))
}

// The largest number that an int of this size can store, signed or not.
fn largest_of(sign: bool, size: usize) -> Signed
    requires { (1 ≤ size) × (size ≤ 8) }
    ensures { result ≡ signed_of (largest sign size) }
{
    let range = range_of(sign, size as u8);
    with_sign(false, range.high)
}

// The lower bound: min, or 0 where it is missing.
fn low_of(min: Option<Signed>) -> Signed
    ensures { result ≡ low_of min }
{
    min.unwrap_or(with_sign(false, 0))
}

// The upper bound: max, or the largest number that the size can store where it is missing.
fn high_of(size: usize, min: Option<Signed>, max: Option<Signed>) -> Signed
    requires { (1 ≤ size) × (size ≤ 8) }
    ensures { result ≡ high_of size min max }
{
    max.unwrap_or_else(|| largest_of(is_below_zero(min), size))
}

// Does the number lie within the bounds of the int with this content and size?
pub fn is_in_bounds(s: &[u8], part: Part, size: usize, negative: bool, magnitude: u64) -> bool
    requires { Inside s.now part × (1 ≤ size) × (size ≤ 8) }
    ensures { result ≡ within (bounds_of size (content_in s.now part)).min (bounds_of size (content_in s.now part)).max (with_sign negative magnitude) }
{
    let value = with_sign(negative, magnitude);
    let min = child_number(s, part, b"min");
    is_at_most(low_of(min), value)
        && is_at_most(value, high_of(size, min, child_number(s, part, b"max")))
}
