// Bytes by place: one byte, a word, two byte strings compared, and the span of a class of bytes. Past the end stands 0, which no
// content has.
#![tactic(auto)]

ghost use Rattle.std.specs.Prelude.{◌≡◌, ℕ, Bool, ◌≤◌, length, get_or, drop, eqb};
ghost use Rattle.cdi.specs.Lists.{any, same as same_bytes, begins, between};
ghost use Rattle.cdi.specs.Pieces.{blank, digit, name_start, name_byte, is_text, hex_digit, value_byte};
ghost use Rattle.scan.specs.Spans.{of_class, Span};

// The classes of bytes that pieces are made of; a value's bytes are told by its quote. (An enum, since the definition `of_class`, which contracts
// name, goes by its cases.)
#[derive(Clone, Copy)]
pub enum Class {
    Blank,
    Name,
    Text,
    Decimal,
    Hexadecimal,
    Value(u8),
}

// The byte at a place, or 0 past the end.
pub fn byte_at(s: &[u8], at: usize) -> u8
    ensures { result ≡ get_or s.now at 0 }
{
    s.get(at).copied().unwrap_or(0)
}

// Does the word stand at this place?
pub fn begins_at(s: &[u8], at: usize, word: &[u8]) -> bool
    requires { at ≤ length s.now }
    ensures { result ≡ begins word.now (drop at s.now) }
{
    // No `starts_with`: tried, and reading settings took 1.2 times as long, since it calls the library's comparison for words of two or three bytes.
    for i in 0..word.len() {
        if s.len() - at <= i || word[i] != s[at + i] {
            return false;
        }
    }
    true
}

// Are the two the same?
pub fn same(a: &[u8], b: &[u8]) -> bool
    ensures { result ≡ same_bytes a.now b.now }
{
    a == b
}

// Does the byte stand anywhere in this?
pub fn holds(s: &[u8], b: u8) -> bool
    ensures { result ≡ any (eqb b) s.now }
{
    s.contains(&b)
}

#[tactic(auto, unfolding(cdi::specs::Pieces::blank))]
pub fn is_blank(b: u8) -> bool
    ensures { result ≡ blank b }
{
    matches!(b, 32 | 9 | 10)
}

#[tactic(auto, unfolding(cdi::specs::Pieces::digit, cdi::specs::Lists::between))]
pub fn is_digit(b: u8) -> bool
    ensures { result ≡ digit b }
{
    matches!(b, 48..=57)
}

#[tactic(auto, unfolding(cdi::specs::Pieces::name_start, cdi::specs::Lists::between))]
pub fn is_name_start(b: u8) -> bool
    ensures { result ≡ name_start b }
{
    matches!(b, 97..=122) || matches!(b, 65..=90) || b == 95 || b == 58
}

#[tactic(auto, unfolding(cdi::specs::Pieces::name_byte))]
pub fn is_name_byte(b: u8) -> bool
    ensures { result ≡ name_byte b }
{
    is_name_start(b) || is_digit(b) || b == 45 || b == 46
}

#[tactic(auto, unfolding(cdi::specs::Pieces::is_text))]
fn is_text(b: u8) -> bool
    ensures { result ≡ is_text b }
{
    b != 60 && b != 38
}

#[tactic(auto, unfolding(cdi::specs::Pieces::hex_digit, cdi::specs::Lists::between))]
fn is_hex_digit(b: u8) -> bool
    ensures { result ≡ hex_digit b }
{
    is_digit(b) || matches!(b, 65..=70) || matches!(b, 97..=102)
}

#[tactic(auto, unfolding(cdi::specs::Pieces::value_byte))]
pub fn is_value_byte(quote: u8, b: u8) -> bool
    ensures { result ≡ value_byte quote b }
{
    b != quote && b != 60
}

#[tactic(auto, unfolding(crate::specs::Spans::of_class))]
fn is_of(class: Class, b: u8) -> bool
    ensures { result ≡ of_class class b }
{
    match class {
        Class::Blank => is_blank(b),
        Class::Name => is_name_byte(b),
        Class::Text => is_text(b),
        Class::Decimal => is_digit(b),
        Class::Hexadecimal => is_hex_digit(b),
        Class::Value(quote) => is_value_byte(quote, b),
    }
}

// The place behind the bytes that pass the test and stand at this place.
pub fn span_while<F: Fn(u8) -> bool>(s: &[u8], at: usize, passes: F) -> usize
    requires at { at ≤ length s.now }
    requires callable { F.IsAlwaysCallable passes }
    ensures { (p : ℕ → Bool) → ((b : ℕ) → (r : Bool) → F.post passes b r → r ≡ p b) → Span p s.now at result }
{
    for i in at..s.len() {
        if !passes(s[i]) {
            return i;
        }
    }
    s.len()
}

// The place behind the bytes of that class that stand at this place.
pub fn span(s: &[u8], at: usize, class: Class) -> usize
    requires { at ≤ length s.now }
    ensures { Span (of_class class) s.now at result }
{
    span_while(s, at, |b| is_of(class, b))
}
