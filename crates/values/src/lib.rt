// Values in bytes: numbers big-endian over the whole of a part, signed ones in two's complement, text with zeros behind it.
#![tactic(auto)]

ghost use Rattle.std.specs.Prelude.{◌≡◌, ◌+◌, ◌*◌, ◌^◌, ◌≤◌, ◌<◌, length};
ghost use Rattle.cdi.specs.Text.{zero_from};
ghost use Rattle.cdi.specs.Values.{bytes_of, value_of as number_of, complement, uncomplement, padded};
ghost use Rattle.terms.specs.Wholes.{whole_of, Plain};
ghost use Rattle.values.specs.Held.{zero_at};

use scan::byte_at;
use terms::Whole;

// ── numbers ──

// Fills the part with the number, its last byte lowest.
pub fn put_number(part: &mut [u8], number: u64)
    ensures { part.new ≡ bytes_of (length part.old) number }
{
    let mut left = number;
    for i in (0..part.len()).rev() {
        part[i] = (left % 256) as u8;
        left /= 256;
    }
}

// The number with one byte more.
fn with_byte(number: u64, b: u8) -> u64
    requires { number < 2 ^ 56 }
    ensures { (result ≡ number * 256 + b) × (b < 256) }
{
    number * 256 + u64::from(b)
}

// The number that the part holds.
pub fn number_in(part: &[u8]) -> u64
    requires { length part.now ≤ 8 }
    ensures { (result ≡ number_of part.now) × (result < 256 ^ length part.now) }
{
    let mut number = 0;
    for b in part {
        number = with_byte(number, *b);
    }
    number
}

// ── two's complement ──

// The largest number of so many bytes.
fn largest(size: usize) -> u64
    requires { size ≤ 8 }
    ensures { result + 1 ≡ 256 ^ size }
{
    let mut most = 0;
    for _ in 0..size {
        most = with_byte(most, 255);
    }
    most
}

// The number whose bytes stand for a whole number.
fn complement_of(size: usize, whole: Whole) -> u64
    requires { (size ≤ 8) × (whole.magnitude ≤ 256 ^ size) }
    ensures { result ≡ complement size (whole_of whole) }
{
    if !whole.negative {
        whole.magnitude
    } else if whole.magnitude == 0 {
        0
    } else {
        largest(size) - (whole.magnitude - 1)
    }
}

// Fills the part with a whole number that fits.
pub fn put_whole(part: &mut [u8], whole: Whole)
    requires { (length part.old ≤ 8) × (whole.magnitude ≤ 256 ^ length part.old) }
    ensures { part.new ≡ bytes_of (length part.old) (complement (length part.old) (whole_of whole)) }
{
    let number = complement_of(part.len(), whole);
    put_number(part, number);
}

// The whole number that a number of so many bytes stands for.
fn uncomplemented(size: usize, signed: bool, number: u64) -> Whole
    requires { (1 ≤ size) × (size ≤ 8) × (number < 256 ^ size) }
    ensures { (whole_of result ≡ uncomplement signed size number) × Plain result }
{
    let most = largest(size);
    if signed && most / 2 < number {
        Whole {
            negative: true,
            magnitude: most - number + 1,
        }
    } else {
        Whole {
            negative: false,
            magnitude: number,
        }
    }
}

// The whole number that the part holds, signed or not.
pub fn whole_in(part: &[u8], signed: bool) -> Whole
    requires { (1 ≤ length part.now) × (length part.now ≤ 8) }
    ensures { (whole_of result ≡ uncomplement signed (length part.now) (number_of part.now)) × Plain result }
{
    let number = number_in(part);
    uncomplemented(part.len(), signed, number)
}

// ── text ──

// Fills the part with the text and zeros behind it.
pub fn put_text(part: &mut [u8], text: &[u8])
    requires { length text.now ≤ length part.old }
    ensures { part.new ≡ padded (length part.old) text.now }
{
    // No `copy_from_slice`: tried, and the archive then needs `memmove`, which those who link it need not have.
    for i in 0..part.len() {
        part[i] = byte_at(text, i);
    }
}

// Where the part has its first zero.
pub fn first_zero(part: &[u8]) -> Option<usize>
    ensures { zero_at result ≡ zero_from 0 part.now }
{
    part.iter().position(|b| *b == 0)
}
