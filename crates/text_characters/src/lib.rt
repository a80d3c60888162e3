// The character that stands at a place, by RFC 3629: its number and its width.
#![tactic(auto)]

ghost use Rattle.std.specs.Prelude.{◌≡◌, true, ◌&&◌, [], ◌∷◌, ◌+◌, ◌*◌, ◌-◌, ◌≤◌, leb, drop};
ghost use Rattle.cdi.specs.Lists.{between};
ghost use Rattle.cdi.specs.Text.{continues, scalar, sequence as sequence_of, character_at, is_char};
ghost use Rattle.text_characters.specs.Answers.{character_of};

// A character's number and how many bytes it takes.
#[derive(Clone, Copy, Debug, PartialEq, Eq)]
pub struct Character {
    pub code: u32,
    pub width: usize,
}

#[tactic(auto, unfolding(cdi::specs::Lists::between))]
pub fn is_between(lo: u32, hi: u32, c: u32) -> bool
    ensures { result ≡ between lo hi c }
{
    lo <= c && c <= hi
}

// Has a character this number? The surrogates are none.
#[tactic(auto, unfolding(cdi::specs::Text::scalar))]
fn is_scalar(c: u32) -> bool
    ensures { result ≡ scalar c }
{
    c < 0xD800 || is_between(0xE000, 0x10FFFF, c)
}

// Is it an XML character?
#[tactic(auto, unfolding(cdi::specs::Text::is_char, cdi::specs::Lists::between))]
pub fn is_char(c: u32) -> bool
    ensures { result ≡ is_char c }
{
    matches!(c, 9 | 10 | 13 | 0x20..=0xD7FF | 0xE000..=0xFFFD | 0x10000..=0x10FFFF)
}

// Does the byte continue a character?
#[tactic(auto, unfolding(cdi::specs::Text::continues, cdi::specs::Lists::between))]
fn does_continue(b: u8) -> bool
    ensures { result ≡ continues b }
{
    matches!(b, 128..=191)
}

// How far the byte lies above the base, or 0 below it.
fn above(b: u8, base: u8) -> u32
    ensures { (result ≡ b - base) × (result ≤ 255) }
{
    u32::from(b.saturating_sub(base))
}

// A character's number with the six bits of one more byte.
fn joined(c: u32, b: u8) -> u32
    requires { c ≤ 0x200000 }
    ensures { result ≡ c * 64 + (b - 128) }
{
    c * 64 + above(b, 128)
}

// The character of that number, if it is one and no shorter sequence holds it.
#[tactic(auto, unfolding(cdi::specs::Text::sequence, crate::specs::Answers::character_of))]
fn sequence(code: u32, smallest: u32, width: usize) -> Option<Character>
    ensures { character_of result ≡ sequence_of true code smallest width }
{
    if smallest <= code && is_scalar(code) {
        Some(Character { code, width })
    } else {
        None
    }
}

// The character of two bytes.
#[tactic(auto, unfolding(cdi::specs::Text::sequence, crate::specs::Answers::character_of))]
fn of_two(a: u8, b: u8) -> Option<Character>
    ensures { character_of result ≡ sequence_of (continues b) ((a - 192) * 64 + (b - 128)) 128 2 }
{
    if !does_continue(b) {
        return None;
    }
    sequence(joined(above(a, 192), b), 128, 2)
}

// The character of three bytes.
#[tactic(auto, unfolding(cdi::specs::Text::sequence, crate::specs::Answers::character_of))]
fn of_three(a: u8, b: u8, c: u8) -> Option<Character>
    ensures { character_of result ≡ sequence_of (continues b && continues c) (((a - 224) * 64 + (b - 128)) * 64 + (c - 128)) 2048 3 }
{
    if !(does_continue(b) && does_continue(c)) {
        return None;
    }
    sequence(joined(joined(above(a, 224), b), c), 2048, 3)
}

// The character of four bytes.
#[tactic(auto, unfolding(cdi::specs::Text::sequence, crate::specs::Answers::character_of))]
fn of_four(a: u8, b: u8, c: u8, d: u8) -> Option<Character>
    ensures { character_of result ≡ sequence_of (continues b && continues c && continues d) ((((a - 240) * 64 + (b - 128)) * 64 + (c - 128)) * 64 + (d - 128)) 65536 4 }
{
    if !(does_continue(b) && does_continue(c) && does_continue(d)) {
        return None;
    }
    sequence(joined(joined(joined(above(a, 240), b), c), d), 65536, 4)
}

// The character at the front of these four bytes.
fn of_bytes(a: u8, b: u8, c: u8, d: u8) -> Option<Character>
    ensures { character_of result ≡ character_at (a ∷ b ∷ c ∷ d ∷ []) }
{
    match a {
        0..=127 => sequence(u32::from(a), 0, 1),
        192..=223 => of_two(a, b),
        224..=239 => of_three(a, b, c),
        240..=247 => of_four(a, b, c, d),
        _ => None,
    }
}

// The character that stands at a place. Where four bytes are left, none is asked whether it is there.
pub fn character_at(s: &[u8], at: usize) -> Option<Character>
    ensures { character_of result ≡ character_at (drop at s.now) }
{
    if s.len() <= at {
        return None;
    }
    if 4 <= s.len() - at {
        return of_bytes(s[at], s[at + 1], s[at + 2], s[at + 3]);
    }
    let b = scan::byte_at(s, at + 1);
    let c = scan::byte_at(s, at + 2);
    let d = scan::byte_at(s, at + 3);
    of_bytes(s[at], b, c, d)
}
