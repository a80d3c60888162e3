// Answers a stream of cases from standard input, one line for each. A frame that is cut off, beyond its limits or of another first byte ends the
// run with `bad frame`.
#![tactic(auto)]

pub mod accesses; // writing and reading
pub mod plans; // planning
pub mod sessions; // sessions with undo
pub mod tables; // locating

ghost use Rattle.std.specs.Prelude.{◌≤◌, IfSome};

use answers_out::lines::{Line, bad};
use answers_out::say;

// The answer to the frame that begins with this byte; none to a bad one.
fn next(first: u8, text: &mut [u8], table: &mut [i64], window: &mut [u8]) -> Option<Line>
    ensures { IfSome result (λ line. line.count ≤ 4) }
{
    match first {
        b'C' | b'Z' | b'U' | b'N' | b'F' | b'M' => answers_leaves::frame(first, text),
        b'K' => answers_backups::frame_store(window),
        b'R' => answers_backups::frame_read(),
        b'L' => tables::frame(table, text),
        b'P' => plans::frame(text, table),
        b'I' | b'E' | b'S' | b'G' | b'J' => accesses::frame(first, text, table, window),
        _ => None,
    }
}

// Frames up to the end of the input, or to the first bad one.
fn run(text: &mut [u8], table: &mut [i64], window: &mut [u8]) {
    for _ in 0..u64::MAX {
        let Some(first) = frames::read_byte() else {
            return;
        };
        let Some(line) = next(first, text, table, window) else {
            say(bad());
            return;
        };
        say(line);
    }
}

// The lengths of the buffers are the limits of the fields.
fn main() {
    let mut text = [0u8; 70000];
    let mut table = [0i64; 40000];
    let mut window = [0u8; 70000];
    run(&mut text, &mut table, &mut window);
}
