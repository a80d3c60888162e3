// Characters by their numbers: the number that digits make, and a character's bytes in UTF-8.
#![tactic(auto)]

ghost use Rattle.std.specs.Prelude.{◌≡◌, ◌-◌, ◌≤◌};
ghost use Rattle.cdi.specs.Pieces.{lower as lowered, hex_value};
ghost use Rattle.pieces_characters.specs.Characters.{clip, further, value_in, Encoded};

use scan::is_digit;

// A character's bytes in UTF-8, and how many they are; the others are 0.
#[derive(Clone, Copy)]
pub struct Encoding {
    pub bytes: [u8; 4],
    pub length: usize,
}

// The first number that is too large for a character.
const BEYOND: u32 = 0x110000;

// A capital letter's small one, or the byte itself.
pub fn lower(b: u8) -> u8
    ensures { result ≡ lowered b }
{
    match b {
        b'A'..=b'Z' => b + 32,
        _ => b,
    }
}

// A digit's value; 0 below the digits.
fn decimal_digit(b: u8) -> u8
    ensures { result ≡ b - 48 }
{
    b.saturating_sub(48)
}

// A hexadecimal digit's value in either case.
fn hexadecimal_digit(b: u8) -> u8
    ensures { result ≡ hex_value b }
{
    if is_digit(b) {
        return decimal_digit(b);
    }
    lower(b).saturating_sub(87)
}

// The number, or the first that is too large for a character where it is no smaller.
fn clipped(code: u32) -> u32
    ensures { (result ≡ clip code) × (result ≤ 0x110000) }
{
    code.min(BEYOND)
}

// The number with one digit more.
fn with_digit(hex: bool, code: u32, b: u8) -> u32
    requires { code ≤ 0x110000 }
    ensures { (result ≡ clip (further hex code b)) × (result ≤ 0x110000) }
{
    if hex {
        return clipped(code * 16 + u32::from(hexadecimal_digit(b)));
    }
    clipped(code * 10 + u32::from(decimal_digit(b)))
}

// The number that the digits make, or 0x110000 where it is too large for a character.
pub fn number_of(hex: bool, digits: &[u8]) -> u32
    ensures { result ≡ clip (value_in hex 0 digits.now) }
{
    let mut code: u32 = 0;
    for b in digits {
        code = with_digit(hex, code, *b);
    }
    code
}

// The character in UTF-8; nothing of a number that is too large for one.
pub fn utf8(code: u32) -> Encoding
    ensures { Encoded code result }
{
    if code < 128 {
        return Encoding {
            bytes: [code as u8, 0, 0, 0],
            length: 1,
        };
    }
    if code < 2048 {
        return Encoding {
            bytes: [(192 + code / 64) as u8, (128 + code % 64) as u8, 0, 0],
            length: 2,
        };
    }
    if code < 65536 {
        return Encoding {
            bytes: [
                (224 + code / 4096) as u8,
                (128 + code / 64 % 64) as u8,
                (128 + code % 64) as u8,
                0,
            ],
            length: 3,
        };
    }
    if code < BEYOND {
        return Encoding {
            bytes: [
                (240 + code / 262144) as u8,
                (128 + code / 4096 % 64) as u8,
                (128 + code / 64 % 64) as u8,
                (128 + code % 64) as u8,
            ],
            length: 4,
        };
    }
    Encoding {
        bytes: [0; 4],
        length: 0,
    }
}
