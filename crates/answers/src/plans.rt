// Frames that plan a text.

ghost use Rattle.std.specs.Prelude.{◌≤◌, IfSome};

use answers_out::lines::{Line, hashed, refused, two};
use answers_out::words;
use frames_hash::hash;
use frames_signed::signed;
use plan::plan;
use plan_stages::Planned;
use refusals::Refusal;

// The table that is lent: number i holds -7 - i.
fn fill(table: &mut [i64]) {
    for (i, number) in table.iter_mut().enumerate() {
        *number = signed(std::num::wrapping_sub_u64(0xFFFF_FFFF_FFFF_FFF9, i as u64));
    }
}

// `planned RECORDS VARIABLES` or `refused NUMBER PLACE`
fn told(answer: Result<Planned, Refusal>) -> Line
    ensures { result.count ≤ 4 }
{
    match answer {
        Ok(found) => two(words::PLANNED, found.records as u64, found.variables),
        Err(refusal) => refused(refusal.number, refusal.place),
    }
}

// The text planned into the table, and the hash of the whole table afterwards.
fn planned(text: &[u8], table: &mut [i64]) -> Line
    ensures { result.count ≤ 4 }
{
    fill(table);
    let answer = plan(text, table);
    hashed(told(answer), hash(table))
}

// The answer to a frame `P`: planning a text into a table of so many numbers.
pub fn frame(text: &mut [u8], table: &mut [i64]) -> Option<Line>
    ensures { IfSome result (λ line. line.count ≤ 4) }
{
    let numbers = frames::read_number()?;
    if (table.len() as u64) < numbers {
        return None;
    }
    let size = frames::read_part(text)?;
    Some(planned(&text[..size], &mut table[..numbers as usize]))
}
