// Planning: any text and any lent table in, a refusal with its place or the table out. The rows are made in a table of the planner's own and
// copied to the caller's as the last step, so that a refusal writes nothing. That table is cleared for each text, so a text gets one of the size
// that likely fits it; where it has more records, it is planned again with more rows.
#![tactic(auto)]

ghost use Rattle.std.specs.Prelude.{◌≡◌, ◌%◌, ◌≤◌, length, IsSome, MatchOption};
ghost use Rattle.cdi.specs.Planning.{planned, table_after};
ghost use Rattle.plan_stages.specs.Outlines.{answer_of, of_markup, planned_by, after_by};

use plan_opening::open_text;
use plan_outline::outline;
use plan_stages::Planned;
use plan_table::{FEW_NUMBERS, MANY_NUMBERS, MORE_NUMBERS, has_room, put};
use refusals::Refusal;

// Content up to these lengths seldom has more records.
const SHORT: usize = 4096;

const LONGER: usize = 32768;

// Stages 4 to 13 of content that begins with the first line, with rows of this length; nothing where these are too few. It isn't compiled into its
// callers, so that their frames don't hold its rows.
#[inline(never)]
fn plan_in<const LENGTH: usize>(
    content: &[u8],
    table: &mut [i64],
) -> Option<Result<Planned, Refusal>>
    requires { (22 ≤ length content.now) × (length content.now ≤ 65535) × (LENGTH % 8 ≡ 0) × (LENGTH ≤ 32768) }
    ensures told { MatchOption result (table.new ≡ table.old) (λ r. (r ≡ planned_by (of_markup content.now) (length table.old)) × (table.new ≡ after_by (of_markup content.now) table.old)) }
    ensures room { 32768 ≤ LENGTH → IsSome result }
{
    let mut rows = [0i64; LENGTH];
    match outline(content, &mut rows) {
        Ok(found) => {
            if has_room(&rows, found.records) {
                Some(put(&rows, found, table))
            } else {
                None
            }
        }
        Err(refusal) => Some(Err(refusal)),
    }
}

// Stages 4 to 13, with rows by the content's length, and with more where these are too few.
fn plan_content(content: &[u8], table: &mut [i64]) -> Result<Planned, Refusal>
    requires { (22 ≤ length content.now) × (length content.now ≤ 65535) }
    ensures answer { result ≡ planned_by (of_markup content.now) (length table.old) }
    ensures after { table.new ≡ after_by (of_markup content.now) table.old }
{
    if content.len() <= SHORT
        && let Some(told) = plan_in::<FEW_NUMBERS>(content, table)
    {
        return told;
    }
    if content.len() <= LONGER
        && let Some(told) = plan_in::<MORE_NUMBERS>(content, table)
    {
        return told;
    }
    plan_in::<MANY_NUMBERS>(content, table).unwrap()
}

// The plan of a text: its records stand at the front of the table and the rest of it is unchanged, or it is refused and the whole table is
// unchanged.
pub fn plan(text: &[u8], table: &mut [i64]) -> Result<Planned, Refusal>
    ensures answer { answer_of result ≡ planned text.now table.old }
    ensures after { table.new ≡ table_after text.now table.old }
{
    let end = open_text(text)?;
    plan_content(&text[0..end], table)
}
