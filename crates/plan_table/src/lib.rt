// Stage 13: the records go to the front of the lent table, where they fit.
#![tactic(auto)]

ghost use Rattle.std.specs.Prelude.{◌≡◌, cond, ◌*◌, ◌≤◌, leb, length, take};
ghost use Rattle.cdi.specs.Planning.{placed};
ghost use Rattle.plan_stages.specs.Outlines.{put_of};

use plan_stages::Planned;
use refusals::Refusal;
use terms::{FIELDS, MOST_ELEMENTS};

// Rows have room for so many records: as few as most texts have, more, or as many as a description can have.
pub const FEW: usize = 128;

pub const MORE: usize = 1024;

pub const MANY: usize = MOST_ELEMENTS;

// The lengths of such rows.
pub const FEW_NUMBERS: usize = FIELDS * FEW;

pub const MORE_NUMBERS: usize = FIELDS * MORE;

pub const MANY_NUMBERS: usize = FIELDS * MANY;

// Have the rows room for so many records?
pub fn has_room(rows: &[i64], records: usize) -> bool
    ensures { result ≡ leb (8 * records) (length rows.now) }
{
    records <= rows.len() / FIELDS
}

// Puts these numbers at the front of the table.
#[tactic(auto, unfolding(cdi::specs::Planning::placed))]
fn copy(rows: &[i64], table: &mut [i64])
    requires { length rows.now ≤ length table.old }
    ensures { table.new ≡ placed rows.now table.old }
{
    table[..rows.len()].copy_from_slice(rows);
}

// Stage 13: the rows of what was found go to the front of the table, where they fit.
#[tactic(auto, unfolding(plan_stages::specs::Outlines::put_of))]
pub fn put(rows: &[i64], found: Planned, table: &mut [i64]) -> Result<Planned, Refusal>
    requires { 8 * found.records ≤ length rows.now }
    ensures answer { (result ≡ put_of found.records found.variables (length table.old)) × (8 * found.records ≤ length rows.now) }
    ensures after { table.new ≡ cond (leb (8 * found.records) (length table.old)) (placed (take (8 * found.records) rows.now) table.old) table.old }
{
    let size = FIELDS * found.records;
    if table.len() < size {
        return Err(Refusal {
            number: 13,
            place: 0,
        });
    }
    copy(&rows[..size], table);
    Ok(found)
}
