// Frames that hand in a text, its table and a window: writing, reading, sessions.

ghost use Rattle.std.specs.Prelude.{◌≤◌, IfSome};

use crate::sessions::session;
use answers_access::reads::reading;
use answers_access::writes::writing;
use answers_fields::{Held, text_and_table, window_of};
use answers_out::lines::Line;
use frames::read_number;

// The variable's number, which a session has not.
fn variable(first: u8) -> Option<u64> {
    if first == b'J' {
        Some(0)
    } else {
        read_number()
    }
}

// The rest of a frame behind its window, by its first byte.
fn answer(
    first: u8,
    text: &[u8],
    table: &[i64],
    n: u64,
    held: Held,
    window: &mut [u8],
) -> Option<Line>
    ensures { IfSome result (λ line. line.count ≤ 4) }
{
    match first {
        b'J' => session(text, table, held, window),
        b'G' => Some(reading(text, table, n, held, window)),
        _ => writing(first, text, table, n, held, window),
    }
}

// The rest of a frame behind its table.
fn behind_table(first: u8, text: &[u8], table: &[i64], window: &mut [u8]) -> Option<Line>
    ensures { IfSome result (λ line. line.count ≤ 4) }
{
    let n = variable(first)?;
    let held = window_of(window)?;
    answer(first, text, table, n, held, &mut window[..held.window])
}

// The frame `I`, `E`, `S`, `G` or `J`. The table is read through the window's buffer.
pub fn frame(first: u8, text: &mut [u8], table: &mut [i64], window: &mut [u8]) -> Option<Line>
    ensures { IfSome result (λ line. line.count ≤ 4) }
{
    let described = text_and_table(text, table, window)?;
    behind_table(
        first,
        &text[..described.text],
        &table[..described.numbers],
        window,
    )
}
