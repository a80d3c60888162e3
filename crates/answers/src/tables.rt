// Frames that ask of a table alone.

ghost use Rattle.std.specs.Prelude.{◌≤◌, IfSome};

use answers_out::lines::{Line, four, plain, refused};
use answers_out::{tell, tell_kind, words};
use locate::{Absent, locate};

// `found RECORD SPACE ADDRESS SIZE KIND`, or `refused 20 0`, `refused 21 0`
fn located(table: &[i64], n: u64) -> Line
    ensures { result.count ≤ 4 }
{
    match locate(table, n) {
        Ok(it) => {
            tell(four(
                words::FOUND,
                it.record as u64,
                it.space,
                it.address,
                it.size,
            ));
            tell_kind(it.kind);
            plain(words::NOTHING)
        }
        Err(Absent::NotAPlan) => refused(20, 0),
        Err(Absent::NoVariable) => refused(21, 0),
    }
}

// The answer to a frame `L`: locating in a table.
pub fn frame(table: &mut [i64], text: &mut [u8]) -> Option<Line>
    ensures { IfSome result (λ line. line.count ≤ 4) }
{
    let size = frames::read_numbers(table, text)?;
    let n = frames::read_number()?;
    Some(located(&table[..size], n))
}
