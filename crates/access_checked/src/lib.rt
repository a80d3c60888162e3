// Whether a table is exactly the one planned from a text. The text's own rows are made in a table of the lent one's class, so that the text is planned
// once: where these rows are too few, the lent table is not the one.
#![tactic(auto)]

ghost use Rattle.std.specs.Prelude.{◌≡◌, ◌&&◌, ◌*◌, ◌%◌, ◌≤◌, ◌⊎◌, leb, length, take};
ghost use Rattle.cdi.specs.Table.{same_table};
ghost use Rattle.plan_stages.specs.Outlines.{Few};
ghost use Rattle.access_lookup.specs.Told.{known_of};
ghost use Rattle.access_checked.specs.Told.{checked_of, compared_by, compared_of};

use locate_rows::is_same;
use plan_opening::open_text;
use plan_outline::outline;
use plan_stages::Planned;
use plan_table::{FEW_NUMBERS, MANY_NUMBERS, MORE_NUMBERS};
use refusals::Refusal;
use terms::FIELDS;

// Is the table that of so many records, all of which these rows have?
#[tactic(auto, using(crate::proofs::Comparing::fronts_compared))]
fn is_planned(table: &[i64], rows: &[i64], records: usize) -> bool
    requires { records ≤ 4096 }
    ensures { result ≡ (leb (8 * records) (length rows.now) && same_table table.now (take (8 * records) rows.now)) }
{
    let size = FIELDS * records;
    size <= rows.len() && is_same(table, &rows[0..size])
}

// The end of the content, or 20, where the content is told with these rows.
#[tactic(auto, using(crate::proofs::Comparing::telling))]
fn compared(
    told: Result<Planned, Refusal>,
    rows: &[i64],
    table: &[i64],
    end: usize,
) -> Result<usize, Refusal>
    requires { Few told }
    ensures { result ≡ compared_by told rows.now table.now end }
{
    let found = told?;
    if is_planned(table, rows, found.records) {
        return Ok(end);
    }
    Err(Refusal {
        number: 20,
        place: 0,
    })
}

// Stages 4 to 12 of content that begins with the first line, and 20, with rows of this length, which is the table's at least or has room for all records.
// It isn't compiled into its callers, so that their frames don't hold its rows.
#[inline(never)]
fn compare_in<const LENGTH: usize>(content: &[u8], table: &[i64]) -> Result<usize, Refusal>
    requires { (22 ≤ length content.now) × (length content.now ≤ 65535) × (LENGTH % 8 ≡ 0) × (LENGTH ≤ 32768) × ((length table.now ≤ LENGTH) ⊎ (32768 ≤ LENGTH)) }
    ensures { checked_of result ≡ compared_of content.now table.now }
{
    let mut rows = [0i64; LENGTH];
    let told = outline(content, &mut rows);
    compared(told, &rows, table, content.len())
}

// Stages 4 to 12 and 20, with rows by the table's length.
fn compare(content: &[u8], table: &[i64]) -> Result<usize, Refusal>
    requires { (22 ≤ length content.now) × (length content.now ≤ 65535) }
    ensures { checked_of result ≡ compared_of content.now table.now }
{
    if table.len() <= FEW_NUMBERS {
        return compare_in::<FEW_NUMBERS>(content, table);
    }
    if table.len() <= MORE_NUMBERS {
        return compare_in::<MORE_NUMBERS>(content, table);
    }
    compare_in::<MANY_NUMBERS>(content, table)
}

// The end of the text's content, where the text is accepted and the table exactly the one planned from it; or the refusal.
pub fn check(text: &[u8], table: &[i64]) -> Result<usize, Refusal>
    ensures { checked_of result ≡ known_of text.now table.now }
{
    let end = open_text(text)?;
    compare(&text[0..end], table)
}
