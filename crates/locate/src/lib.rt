// Which tables are plans, and where variable n of a plan lives: asked of a table alone.
#![tactic(auto)]

ghost use Rattle.std.specs.Prelude.{◌≡◌, true, ◌≤◌, ◌+◌, ◌*◌, ◌%◌, length};
ghost use Rattle.cdi.specs.Plans.{is_plan, segments_of, variable_of, locating};
ghost use Rattle.locate.specs.Answers.{told_of, Held};
ghost use Rattle.locate_ways.specs.Finding.{standing};

use locate_copies::next_record;
use locate_plan::is_plan;
use locate_rows::{COUNT, EXTRA, KIND, START, rise_at};
use locate_ways::{NOWHERE, RECORDS, find_in};
use terms::FIELDS;

// A variable: the number of its record, its space, address, size and kind.
#[derive(Clone, Copy)]
pub struct Variable {
    pub record: usize,
    pub space: u64,
    pub address: u64,
    pub size: u64,
    pub kind: u64,
}

// Why there is none: refusal 20 for `NotAPlan`, 21 for `NoVariable`.
#[derive(Clone, Copy, Debug, PartialEq, Eq)]
pub enum Absent {
    NotAPlan,
    NoVariable,
}

// What `find_in` found, as the answer for a segment of this space.
fn told(table: &[i64], space: u64, found: u64) -> Result<Variable, Absent>
    requires { (found ≡ 18446744073709551615 → ⊥) → found % 4096 * 8 + 8 ≤ length table.now }
    ensures is { told_of result ≡ standing table.now space found }
    ensures held { Held table.now result }
{
    if found == NOWHERE {
        return Err(Absent::NoVariable);
    }
    let record = (found % RECORDS) as usize;
    Ok(Variable {
        record,
        space,
        address: found / RECORDS,
        size: rise_at(table, record, EXTRA),
        kind: rise_at(table, record, KIND),
    })
}

// Variable `n` of a table that is known to be a plan: what a caller repeats once the test has passed.
pub fn find(table: &[i64], n: u64) -> Result<Variable, Absent>
    requires { is_plan table.now ≡ true }
    ensures is { told_of result ≡ variable_of (segments_of table.now) n }
    ensures held { Held table.now result }
{
    let records = table.len() / FIELDS;
    let mut i = 0;
    let mut left = n;
    // A `while`: a step goes past a whole subtree.
    while i < records {
        let count = rise_at(table, i, COUNT);
        let next = next_record(table, i, records);
        if left < count {
            let origin = rise_at(table, i, START);
            let space = rise_at(table, i, EXTRA);
            let found = find_in(&table, i + 1, next, origin, left);
            return told(table, space, found);
        }
        left -= count;
        i = next;
    }
    Err(Absent::NoVariable)
}

// Variable `n` of any table: entry `n` of the walk that copies every group out, or the refusal.
pub fn locate(table: &[i64], n: u64) -> Result<Variable, Absent>
    ensures { told_of result ≡ locating table.now n }
{
    if !is_plan(table) {
        return Err(Absent::NotAPlan);
    }
    find(table, n)
}
