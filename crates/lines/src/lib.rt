// The bytes of a program's lines, put into a lent slice one part behind another. Each function says what stands before the place that it
// returns.
#![tactic(auto)]

ghost use Rattle.std.specs.Prelude.{◌≡◌, [], ◌+◌, ◌*◌, ◌^◌, ◌≤◌, ◌<◌, length, take};
ghost use Rattle.lines_items.specs.Bytes.{line, lines_in, refusal_line, count_line};

use lines_items::{put_all, put_kind, put_next, put_number};

// The line of variable `n`.
pub fn put_line(
    out: &mut [u8],
    at: usize,
    n: u64,
    space: u64,
    address: u64,
    size: u64,
    kind: u64,
) -> usize
    requires { at + 92 ≤ length out.old }
    ensures put { take result out.new ≡ line (take at out.old) n space address size kind }
    ensures ends { result ≤ at + 92 }
{
    let mut to = put_number(out, at, n);
    to = put_next(out, to, space);
    to = put_next(out, to, address);
    to = put_next(out, to, size);
    to = put_kind(out, to, kind);
    put_all(out, to, b"\n")
}

// The lines of the variables `first`, `first` + 1, .., so many of them, five numbers each.
pub fn put_lines(out: &mut [u8], first: u64, numbers: &[u64], count: usize) -> usize
    requires { (count * 92 ≤ length out.old) × (count * 5 ≤ length numbers.now) × (first + count < 2 ^ 64) }
    ensures put { take result out.new ≡ lines_in [] first numbers.now count }
    ensures ends { result ≤ count * 92 }
{
    let mut at = 0;
    for i in 0..count {
        let from = i * 5;
        at = put_line(
            out,
            at,
            first + i as u64,
            numbers[from + 1],
            numbers[from + 2],
            numbers[from + 3],
            numbers[from + 4],
        );
    }
    at
}

// The line of a refusal.
pub fn put_refusal(out: &mut [u8], number: usize, place: usize) -> usize
    requires { 64 ≤ length out.old }
    ensures put { take result out.new ≡ refusal_line number place }
    ensures ends { result ≤ 64 }
{
    let mut to = put_all(out, 0, b"refused ");
    to = put_number(out, to, number as u64);
    to = put_all(out, to, b" at ");
    to = put_number(out, to, place as u64);
    put_all(out, to, b"\n")
}

// The line of an accepted description: how many variables it has.
pub fn put_count(out: &mut [u8], variables: u64) -> usize
    requires { 64 ≤ length out.old }
    ensures put { take result out.new ≡ count_line variables }
    ensures ends { result ≤ 64 }
{
    let mut to = put_all(out, 0, b"variables ");
    to = put_number(out, to, variables);
    put_all(out, to, b"\n")
}
