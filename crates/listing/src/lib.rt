// The variables of a plan, many at a time, for a program that lists them all: a batch walks down to its first variable once and then
// goes on from one to the next, copy after copy, so that skipped records are paid for once a batch.
#![tactic(auto)]

ghost use Rattle.std.specs.Prelude.{◌≡◌, true, length};
ghost use Rattle.cdi.specs.Walk.{walk};
ghost use Rattle.cdi.specs.Plans.{segments_of, is_plan};
ghost use Rattle.listing_fill.specs.Batch.{batch, listed, listing, out_after};
ghost use Rattle.listing.specs.Told.{listing_of};

use listing_fill::{EACH, fill_copies};
use locate_copies::next_record;
use locate_plan::is_plan;
use locate_rows::{COUNT, EXTRA, START, rise_at};
use terms::FIELDS;

// Fills the slice with the variables n, n + 1, .. of a table that is known to be a plan, five numbers each, as many as it has room for or remain,
// and returns how many.
pub fn list_known(table: &[i64], n: u64, out: &mut [u64]) -> usize
    requires { is_plan table.now ≡ true }
    ensures value { result ≡ length (batch (walk (segments_of table.now)) n out.old) }
    ensures out_after { out.new ≡ listed (walk (segments_of table.now)) n out.old }
{
    let records = table.len() / FIELDS;
    let room = out.len() / EACH;
    let mut i = 0;
    let mut left = n;
    let mut k = 0;
    // A `while`: a step goes past a whole subtree.
    while i < records {
        let count = rise_at(table, i, COUNT);
        let next = next_record(table, i, records);
        if count <= left {
            left -= count;
            i = next;
            continue;
        }
        let origin = rise_at(table, i, START);
        let space = rise_at(table, i, EXTRA);
        k = fill_copies(table, i + 1, next, origin, 1, left, space, out, room, k);
        left = 0;
        i = next;
    }
    k
}

// The same of any table; one that is no plan is listed as none, refusal 20, and leaves the slice as it was.
pub fn list(table: &[i64], n: u64, out: &mut [u64]) -> Option<usize>
    ensures answer { listing_of result ≡ listing table.now n out.old }
    ensures after { out.new ≡ out_after table.now n out.old }
{
    if !is_plan(table) {
        return None;
    }
    Some(list_known(table, n, out))
}
