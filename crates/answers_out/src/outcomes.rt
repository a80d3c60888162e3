// The outcomes of a session's operations: number and place of each refusal, or 0 and 0.

ghost use Rattle.std.specs.Prelude.{◌≤◌};

use crate::lines::{either, ended, one, plain};
use crate::{tell, words};

// Writes a word, and `+` or `NUMBER.PLACE` behind it.
fn tell_outcome(word: &'static [u8], number: usize, place: usize) {
    if number == 0 {
        tell(ended(plain(word), words::STANDS));
        return;
    }
    tell(one(word, number as u64));
    tell(one(words::DOT, place as u64));
}

// Writes so many outcomes, with commas between; `-` if there are none.
pub fn tell_outcomes(numbers: &[usize; 1000], places: &[usize; 1000], count: usize)
    requires { count ≤ 1000 }
{
    if count == 0 {
        tell(plain(words::DASH));
    }
    for i in 0..count {
        let before = either(i == 0, words::NOTHING, words::COMMA);
        tell_outcome(before, numbers[i], places[i]);
    }
}
