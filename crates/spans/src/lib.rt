// One byte at a place, and spans of one class of bytes each, so that no byte is asked what another class would need: blanks, the bytes of a name and
// those of a value. They say what `scan::span` says.
#![tactic(auto)]

ghost use Rattle.std.specs.Prelude.{◌≡◌, [], ◌∷◌, ◌-◌, ◌≤◌, eqb, length, take, drop};
ghost use Rattle.cdi.specs.Lists.{any, begins};
ghost use Rattle.cdi.specs.Pieces.{blank, value_byte};
ghost use Rattle.scan.specs.Spans.{of_class, Span};
ghost use Rattle.scan.specs.declared.Class.TheVariants.{Name, Value};

use scan::{is_blank, is_name_byte, is_value_byte, span_while};

// Where a value ends: the place of its closing quote, or of what stands in its place, and whether `&` stands before it.
#[derive(Clone, Copy)]
pub struct Ended {
    pub close: usize,
    pub refers: bool,
}

// Does the byte stand at this place?
pub fn is_at(s: &[u8], at: usize, b: u8) -> bool
    ensures { result ≡ begins (b ∷ []) (drop at s.now) }
{
    at < s.len() && b == s[at]
}

// The place behind the blanks that stand at this place.
pub fn blanks(s: &[u8], at: usize) -> usize
    requires { at ≤ length s.now }
    ensures { Span blank s.now at result }
{
    span_while(s, at, |b| is_blank(b))
}

// The place behind the bytes of a name that stand at this place.
pub fn name_rest(s: &[u8], at: usize) -> usize
    requires { at ≤ length s.now }
    ensures { Span (of_class Name) s.now at result }
{
    span_while(s, at, |b| is_name_byte(b))
}

// The place behind the bytes of a value in this quote that stand at this place. It isn't compiled into its callers, whose many other numbers would leave
// its loop no register: long values took twice as long.
#[inline(never)]
pub fn value_rest(s: &[u8], at: usize, quote: u8) -> usize
    requires { at ≤ length s.now }
    ensures { Span (of_class (Value quote)) s.now at result }
{
    span_while(s, at, |b| is_value_byte(quote, b))
}

// The end of the value in that quote whose first byte stands at this place.
pub fn value_end(s: &[u8], at: usize, quote: u8) -> Ended
    requires { at ≤ length s.now }
    ensures span { Span (value_byte quote) s.now at result.close }
    ensures refers { result.refers ≡ any (eqb 38) (take (result.close - at) (drop at s.now)) }
{
    let mut refers = false;
    for i in at..s.len() {
        let b = s[i];
        if !is_value_byte(quote, b) {
            return Ended { close: i, refers };
        }
        refers |= b'&' == b;
    }
    Ended {
        close: s.len(),
        refers,
    }
}
