// The words of programs' lines in a lent slice: bytes, decimal numbers, kinds.
#![tactic(auto)]

ghost use Rattle.std.specs.Prelude.{◌≡◌, ◌++◌, ◌+◌, ◌≤◌, length, take};
ghost use Rattle.lines_items.specs.Bytes.{decimal, next, kind_word};

use terms::{EVENTID, INT, STRING};

// These bytes.
pub fn put_all(out: &mut [u8], at: usize, bytes: &[u8]) -> usize
    requires { at + length bytes.now ≤ length out.old }
    ensures put { take result out.new ≡ take at out.old ++ bytes.now }
    ensures ends { result ≡ at + length bytes.now }
{
    let end = at + bytes.len();
    out[at..end].copy_from_slice(bytes);
    end
}

// A number in decimal.
pub fn put_number(out: &mut [u8], at: usize, n: u64) -> usize
    requires { at + 20 ≤ length out.old }
    ensures put { take result out.new ≡ take at out.old ++ decimal n }
    ensures ends { result ≤ at + 20 }
{
    let mut digits = [0u8; 20];
    let k = io::decimal(n, &mut digits);
    put_all(out, at, &digits[..k])
}

// A blank and a number.
pub fn put_next(out: &mut [u8], at: usize, n: u64) -> usize
    requires { at + 21 ≤ length out.old }
    ensures put { take result out.new ≡ next (take at out.old) n }
    ensures ends { result ≤ at + 21 }
{
    let to = put_all(out, at, b" ");
    put_number(out, to, n)
}

// A blank and the word for a kind.
pub fn put_kind(out: &mut [u8], at: usize, kind: u64) -> usize
    requires { at + 8 ≤ length out.old }
    ensures put { take result out.new ≡ take at out.old ++ kind_word kind }
    ensures ends { result ≤ at + 8 }
{
    match kind {
        INT => put_all(out, at, b" int"),
        STRING => put_all(out, at, b" string"),
        EVENTID => put_all(out, at, b" eventid"),
        _ => put_all(out, at, b" float"),
    }
}
