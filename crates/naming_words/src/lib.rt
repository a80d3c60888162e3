// A fixed word that stands at a place as a whole name, and the number of a name beside the place behind it.
#![tactic(auto)]

ghost use Rattle.std.specs.Prelude.{◌≡◌, ◌≤◌, length};
ghost use Rattle.naming_words.specs.Whole.{word_end};

use scan::{begins_at, byte_at, is_name_byte};

// The number of a name, 0 for any other than the fixed ones, and the place behind it, which is the name's own place where none stands there.
#[derive(Clone, Copy)]
pub struct Named {
    pub number: u8,
    pub behind: usize,
}

// The place behind the word where it stands at this place and no name goes on behind it, or 0. The first test saves one at each byte.
pub fn word_end(s: &[u8], at: usize, word: &[u8]) -> usize
    requires { at ≤ length s.now }
    ensures { result ≡ word_end word.now s.now at }
{
    if s.len() - at < word.len() {
        return 0;
    }
    let behind = at + word.len();
    if begins_at(s, at, word) {
        let next = byte_at(s, behind);
        if is_name_byte(next) {
            return 0;
        }
        return behind;
    }
    0
}
