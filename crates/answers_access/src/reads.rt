// Answers to reading.

ghost use Rattle.std.specs.Prelude.{◌≤◌};

use access::read;
use access_reading::Reading;
use answers_fields::Held;
use answers_out::lines::{Line, either, ended, one, plain, refused};
use answers_out::{tell, tell_bytes, words};

// ` accepted` or ` not` at the end, by whether writing the value now would be accepted
fn flagged(line: Line, writable: bool) -> Line
    requires { line.count ≤ 4 }
    ensures { result.count ≤ 4 }
{
    ended(line, either(writable, words::ACCEPTED, words::NOT))
}

// Writes `text HEX`, with `-` for no bytes.
fn spell(bytes: &[u8]) {
    tell(plain(either(bytes.is_empty(), words::NO_TEXT, words::TEXT)));
    tell_bytes(bytes);
}

// The answer to a frame `G`.
pub fn reading(text: &[u8], table: &[i64], n: u64, held: Held, window: &[u8]) -> Line
    ensures { result.count ≤ 4 }
{
    let answer = read(text, table, n, held.space, held.first, window);
    match answer {
        Ok(
            Reading::Integer {
                negative,
                magnitude,
                writable,
            },
        ) => {
            let word = either(negative, words::NEGATIVE, words::INTEGER);
            flagged(one(word, magnitude), writable)
        }
        Ok(Reading::Event { id, writable }) => flagged(one(words::EVENT, id), writable),
        Ok(Reading::Text { from, to, writable }) => {
            spell(&window[from..to]);
            flagged(plain(words::NOTHING), writable)
        }
        Err(refusal) => refused(refusal.number, refusal.place),
    }
}
