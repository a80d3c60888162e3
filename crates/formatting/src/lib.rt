// The pattern of `formatting`.
#![tactic(auto)]

ghost use Rattle.std.specs.Prelude.{◌≡◌};
ghost use Rattle.cdi.specs.Lists.{ascii, same as same_bytes, after};
ghost use Rattle.cdi.specs.Pieces.{digit};
ghost use Rattle.cdi.specs.Rules.{is_formatting};
ghost use Rattle.formatting.specs.Formatting.{is_fraction};

// Are these any digits or none, and then `f`?
fn is_tail(s: &[u8]) -> bool
    ensures { result ≡ same_bytes (after digit s.now) (ascii "f") }
{
    let end = scan::span(s, 0, scan::Class::Decimal);
    scan::same(&s[end..], b"f")
}

// Are these `.`, any digits or none, and then `f`?
fn is_fraction(rest: &[u8]) -> bool
    ensures { result ≡ is_fraction rest.now }
{
    let Some(tail) = rest.strip_prefix(b".") else {
        return false;
    };
    is_tail(tail)
}

// Is the value one that `formatting` may have?
pub fn is_formatting(pattern: &[u8]) -> bool
    ensures { result ≡ is_formatting pattern.now }
{
    let Some(tail) = pattern.strip_prefix(b"%") else {
        return false;
    };
    let end = scan::span(tail, 0, scan::Class::Decimal);
    let rest = &tail[end..];
    scan::same(rest, b"f") || is_fraction(rest)
}
