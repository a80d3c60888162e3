// The lines of answers: a line is made as numbers, and written out as bytes.
#![tactic(auto)]

pub mod lines; // what stands in a line
pub mod outcomes; // the outcomes of a session
pub mod words; // the words of lines

ghost use Rattle.std.specs.Prelude.{◌+◌, ◌≤◌, length};

use lines::Line;

// ── bytes put into a buffer, which is written out whenever it is full ──

// A place with room for 64 bytes: `at`, or the buffer's start once it is written out.
fn room(out: &mut [u8], at: usize) -> usize
    requires { (at ≤ length out.old) × (64 ≤ length out.old) }
    ensures { result + 64 ≤ length out.old }
{
    if out.len() - at < 64 {
        flush(out, at);
        return 0;
    }
    at
}

// These bytes.
fn put_all(out: &mut [u8], at: usize, bytes: &[u8]) -> usize
    requires { (at ≤ length out.old) × (64 ≤ length out.old) }
    ensures { result ≤ length out.old }
{
    let to = room(out, at);
    if bytes.len() <= out.len() - to {
        return lines_items::put_all(out, to, bytes);
    }
    flush(out, to);
    io::write_all(1, bytes);
    0
}

// A number in decimal.
fn put_number(out: &mut [u8], at: usize, n: u64) -> usize
    requires { (at ≤ length out.old) × (64 ≤ length out.old) }
    ensures { result ≤ length out.old }
{
    let to = room(out, at);
    lines_items::put_number(out, to, n)
}

// A number in at least so many hexadecimal digits.
fn put_digits(out: &mut [u8], at: usize, n: u64, width: usize) -> usize
    requires { (at ≤ length out.old) × (64 ≤ length out.old) }
    ensures { result ≤ length out.old }
{
    let mut digits = [0u8; 16];
    let k = io::hex(n, width, &mut digits);
    put_all(out, at, &digits[..k])
}

// Two hexadecimal digits for each byte.
fn put_bytes(out: &mut [u8], at: usize, bytes: &[u8]) -> usize
    requires { (at ≤ length out.old) × (64 ≤ length out.old) }
    ensures { result ≤ length out.old }
{
    let mut to = at;
    for b in bytes {
        to = put_digits(out, to, u64::from(*b), 2);
    }
    to
}

fn flush(out: &[u8], at: usize)
    requires { at ≤ length out.now }
{
    io::write_all(1, &out[0..at]);
}

// ── lines ──

// A blank and a number, where there is one.
fn put_more(out: &mut [u8], at: usize, there: bool, n: u64) -> usize
    requires { (at ≤ length out.old) × (64 ≤ length out.old) }
    ensures { result ≤ length out.old }
{
    if there {
        let to = room(out, at);
        return lines_items::put_next(out, to, n);
    }
    at
}

// As many of a line's numbers as it has, with blanks between.
fn put_numbers(out: &mut [u8], at: usize, line: Line) -> usize
    requires { (at ≤ length out.old) × (64 ≤ length out.old) }
    ensures { result ≤ length out.old }
{
    if line.count == 0 {
        return at;
    }
    let mut to = put_number(out, at, line.a);
    to = put_more(out, to, 1 < line.count, line.b);
    to = put_more(out, to, 2 < line.count, line.c);
    put_more(out, to, 3 < line.count, line.d)
}

// A blank and 16 hexadecimal digits, where the line ends in a hash.
fn put_hash(out: &mut [u8], at: usize, line: Line) -> usize
    requires { (at ≤ length out.old) × (64 ≤ length out.old) }
    ensures { result ≤ length out.old }
{
    match line.hash {
        Some(hash) => {
            let to = put_all(out, at, words::BLANK);
            put_digits(out, to, hash, 16)
        }
        None => at,
    }
}

fn put_line(out: &mut [u8], line: Line) -> usize
    requires { 64 ≤ length out.old }
    ensures { result ≤ length out.old }
{
    let mut to = put_all(out, 0, line.word);
    to = put_numbers(out, to, line);
    to = put_all(out, to, line.last);
    put_hash(out, to, line)
}

// Writes what stands in a line up to now.
pub fn tell(line: Line) {
    let mut out = [0u8; 256];
    let to = put_line(&mut out, line);
    flush(&out, to);
}

// Writes a line, or the rest of one, and its end.
pub fn say(line: Line) {
    let mut out = [0u8; 256];
    let to = put_line(&mut out, line);
    let end = put_all(&mut out, to, words::NEWLINE);
    flush(&out, end);
}

// Writes these bytes, two hexadecimal digits for each.
pub fn tell_bytes(bytes: &[u8]) {
    let mut out = [0u8; 4096];
    let to = put_bytes(&mut out, 0, bytes);
    flush(&out, to);
}

// Writes a blank and the word for a kind.
pub fn tell_kind(kind: u64) {
    let mut out = [0u8; 64];
    let to = lines_items::put_kind(&mut out, 0, kind);
    flush(&out, to);
}
