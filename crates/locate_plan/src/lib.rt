// Whether a table is a plan: one pass over its records, which sums up each subtree as an extent instead of copying its groups out.
#![tactic(auto)]

ghost use Rattle.std.specs.Prelude.{◌≡◌, true, ◌≤◌, ◌+◌, ◌*◌, ◌<◌, length};
ghost use Rattle.cdi.specs.Plans.{is_plan, field, item_fits, segment_fits};
ghost use Rattle.cdi.specs.Rules.{natural};
ghost use Rattle.extent.specs.Reach.{Small};
ghost use Rattle.locate_plan.specs.Judging.{tested_of, segment_tells, planned_of};

use extent::{Extent, fits, nothing};
use locate_copies::next_record;
use locate_ranges::{item_fits, segment_fits};
use locate_rows::{START, rise_at};
use locate_sums::{added, told};
use terms::{FIELDS, MOST_VARIABLES};

// "it has at most 4,095 records"
const MOST_RECORDS: usize = 4095;

// Whether the table is a plan. Any slice may be asked; the time is that of one pass over its records.
pub fn is_plan(table: &[i64]) -> bool
    ensures { result ≡ is_plan table.now }
{
    let numbers = table.len();
    if numbers % FIELDS != 0 {
        return false;
    }
    let records = numbers / FIELDS;
    if MOST_RECORDS < records {
        return false;
    }
    segments(table, records)
}

// "nesting is at most depth 24 with the segment at 2": where the members of a segment stand, and the deepest record.
const MEMBERS: u64 = 3;

const DEEPEST: u64 = terms::DEEPEST as u64;

// Tests the data elements from record `from` to before `end`, which stand at `depth`.
fn items(table: &[i64], from: usize, end: usize, depth: u64) -> Option<Extent>
    requires { (from ≤ end) × (end ≤ 4095) × (end * 8 ≤ length table.now) × (depth ≤ 25) }
    ensures { result ≡ tested_of table.now depth from end }
{
    let mut i = from;
    let mut before = nothing();
    // A `while`: a step goes past a whole subtree.
    while i < end {
        if DEEPEST < depth {
            return None;
        }
        if !item_fits(table, i, end) {
            return None;
        }
        let next = next_record(table, i, end);
        let members = items(table, i + 1, next, depth + 1)?;
        before = added(table, i, members, before)?;
        i = next;
    }
    Some(before)
}

// Whether the last two numbers of segment `i` are what the extent of its members says, and its walk keeps the address.
fn segment_told(table: &[i64], i: usize, e: Extent) -> bool
    requires { (i * 8 + 8 ≤ length table.now) × (natural (field table.now i 2) ≤ 2147483647) × Small e }
    ensures { result ≡ segment_tells table.now i e }
{
    told(table, i, e) && fits(rise_at(table, i, START), e)
}

// Whether the first `end` records are segments with their subtrees, and have at most 1,000,000 variables together.
pub fn segments(table: &[i64], end: usize) -> bool
    requires { (end ≤ 4095) × (end * 8 ≤ length table.now) }
    ensures { result ≡ planned_of table.now end }
{
    let mut i = 0;
    let mut count: u64 = 0;
    // A `while`: a step goes past a whole subtree.
    while i < end {
        if !segment_fits(table, i, end) {
            return false;
        }
        let next = next_record(table, i, end);
        let Some(e) = items(table, i + 1, next, MEMBERS) else {
            return false;
        };
        if !segment_told(table, i, e) {
            return false;
        }
        let own = e.count;
        if MOST_VARIABLES - count < own {
            return false;
        }
        count += own;
        i = next;
    }
    true
}
