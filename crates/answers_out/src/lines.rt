// What stands in a line, in this order: a word, so many of four numbers, another word, and a hash if there is one.

ghost use Rattle.std.specs.Prelude.{◌≡◌, cond, ◌≤◌};

use crate::words;

#[derive(Clone, Copy)]
pub struct Line {
    pub word: &'static [u8],
    pub count: usize,
    pub a: u64,
    pub b: u64,
    pub c: u64,
    pub d: u64,
    pub last: &'static [u8],
    pub hash: Option<u64>,
}

// A word and so many of the numbers.
fn counted(word: &'static [u8], count: usize, a: u64, b: u64, c: u64, d: u64) -> Line
    requires { count ≤ 4 }
    ensures { result.count ≤ 4 }
{
    Line {
        word,
        count,
        a,
        b,
        c,
        d,
        last: words::NOTHING,
        hash: None,
    }
}

// A word alone.
pub fn plain(word: &'static [u8]) -> Line
    ensures { result.count ≤ 4 }
{
    counted(word, 0, 0, 0, 0, 0)
}

// A word and a number.
pub fn one(word: &'static [u8], a: u64) -> Line
    ensures { result.count ≤ 4 }
{
    counted(word, 1, a, 0, 0, 0)
}

// A word and two numbers.
pub fn two(word: &'static [u8], a: u64, b: u64) -> Line
    ensures { result.count ≤ 4 }
{
    counted(word, 2, a, b, 0, 0)
}

// A word and three numbers.
pub fn three(word: &'static [u8], a: u64, b: u64, c: u64) -> Line
    ensures { result.count ≤ 4 }
{
    counted(word, 3, a, b, c, 0)
}

// A word and four numbers.
pub fn four(word: &'static [u8], a: u64, b: u64, c: u64, d: u64) -> Line
    ensures { result.count ≤ 4 }
{
    counted(word, 4, a, b, c, d)
}

// `refused NUMBER PLACE`
pub fn refused(number: usize, place: usize) -> Line
    ensures { result.count ≤ 4 }
{
    counted(words::REFUSED, 2, number as u64, place as u64, 0, 0)
}

// `bad frame`: one that is cut off, beyond its limits or of another first byte.
pub fn bad() -> Line
    ensures { result.count ≤ 4 }
{
    plain(words::BAD_FRAME)
}

// The line with this word behind its numbers.
pub fn ended(line: Line, last: &'static [u8]) -> Line
    requires { line.count ≤ 4 }
    ensures { result.count ≤ 4 }
{
    Line { last, ..line }
}

// The line with a hash at its end.
pub fn hashed(line: Line, hash: u64) -> Line
    requires { line.count ≤ 4 }
    ensures { result.count ≤ 4 }
{
    Line {
        hash: Some(hash),
        ..line
    }
}

// One word or the other.
pub fn either(first: bool, a: &'static [u8], b: &'static [u8]) -> &'static [u8]
    ensures { result.now ≡ cond first a.now b.now }
{
    if first { a } else { b }
}
