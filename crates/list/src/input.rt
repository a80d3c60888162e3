// Standard input, as much of it as can change an answer.

ghost use Rattle.std.specs.Prelude.{◌≡◌, true, length};
ghost use Rattle.list.specs.Sizes.{within};

use std::io::{Read, Stdin};

// Reads to the end of the input or of the slice, whichever comes first, and tells how many bytes that are; `None` where a read failed.
pub fn read_text(input: Stdin, text: &mut [u8]) -> Option<usize>
    ensures { within (length text.old) result ≡ true }
{
    let mut from = input;
    let mut at = 0;
    // A read says how far it came, so no `for` counts the bytes.
    while at < text.len() {
        let n = from.read(&mut text[at..]).ok()?;
        if n == 0 {
            return Some(at);
        }
        at += n;
    }
    Some(at)
}
