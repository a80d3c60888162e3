// Answers to writing.

ghost use Rattle.std.specs.Prelude.{◌≤◌, IfSome};

use access::{write_event, write_integer, write_text};
use answers_fields::{Asked, Held, read_value};
use answers_out::lines::{Line, hashed, plain, refused};
use answers_out::words;
use frames_hash::hash_bytes;
use refusals::Refusal;

// `written` or `refused NUMBER PLACE`
fn told(answer: Result<(), Refusal>) -> Line
    ensures { result.count ≤ 4 }
{
    match answer {
        Ok(()) => plain(words::WRITTEN),
        Err(refusal) => refused(refusal.number, refusal.place),
    }
}

// Writes what is asked; a text is the bytes.
fn write(
    text: &[u8],
    table: &[i64],
    asked: Asked,
    held: Held,
    window: &mut [u8],
    bytes: &[u8],
) -> Result<(), Refusal> {
    let n = asked.n;
    let space = held.space;
    let first = held.first;
    if asked.kind == b'I' {
        return write_integer(
            text,
            table,
            n,
            space,
            first,
            window,
            asked.negative,
            asked.magnitude,
        );
    }
    if asked.kind == b'E' {
        return write_event(text, table, n, space, first, window, asked.magnitude);
    }
    write_text(text, table, n, space, first, window, bytes)
}

// The rest of a frame behind its window: the value, of which a text is read into the lent buffer.
fn writing_by(
    first: u8,
    text: &[u8],
    table: &[i64],
    n: u64,
    held: Held,
    window: &mut [u8],
    buffer: &mut [u8],
) -> Option<Line>
    ensures { IfSome result (λ line. line.count ≤ 4) }
{
    let asked = read_value(first, n, buffer)?;
    let answer = write(text, table, asked, held, window, &buffer[..asked.size]);
    Some(hashed(told(answer), hash_bytes(window)))
}

// The rest of a frame `I`, `E` or `S`, and the hash of the whole window at the line's end.
pub fn writing(
    first: u8,
    text: &[u8],
    table: &[i64],
    n: u64,
    held: Held,
    window: &mut [u8],
) -> Option<Line>
    ensures { IfSome result (λ line. line.count ≤ 4) }
{
    let mut buffer = [0u8; 70000];
    writing_by(first, text, table, n, held, window, &mut buffer)
}
