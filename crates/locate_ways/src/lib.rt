// Where variable n of good records stands: along the records, past whole elements by their counts, and down into the one copy that holds it.
#![tactic(auto)]

ghost use Rattle.std.specs.Prelude.{◌≡◌, ◌≤◌, ◌+◌, ◌*◌, ◌^◌, length};
ghost use Rattle.locate_ways.specs.Finding.{Site, Finds};

use locate_copies::{choose, moved_by, next_record};
use locate_rows::{CHANGE, COUNT, KIND, START, natural_at, rise_at};
use terms::GROUP;

// A table has at most 4,095 records, so their numbers are below this one.
pub const RECORDS: u64 = 4096;

// What `find_in` says where there is no variable. One number in place of an `Option`, which goes through memory at each level: that was slower (docs/COSTS.md).
pub const NOWHERE: u64 = 18446744073709551615;

// A record and an address as one number.
fn packed(address: u64, i: usize) -> u64
    requires { (address ≤ 2 ^ 32) × (i ≤ 4095) }
    ensures { result ≡ address * 4096 + i }
{
    address * RECORDS + i as u64
}

// Variable `n` of the data elements from record `from` to before `end`, walked from `origin`: its record and its address, or `NOWHERE`. They are packed so that they
// come back through all levels in a register, and the slice is lent so that it goes down as it came, and is not copied for each level.
pub fn find_in(lent: &&[i64], from: usize, end: usize, origin: u64, n: u64) -> u64
    requires { (from ≤ end) × (end ≤ 4095) × (end * 8 ≤ length lent.now.now) × Site lent.now.now from end origin }
    ensures { Finds lent.now.now from end origin n result }
{
    let table = *lent;
    let mut i = from;
    let mut address = origin;
    let mut left = n;
    // A `while`: a step goes past a whole subtree.
    while i < end {
        let count = natural_at(table, i, COUNT);
        if left < count {
            let start = moved_by(table, i, START, address);
            let kind = rise_at(table, i, KIND);
            if kind == GROUP {
                let copy = choose(table, i, start, left);
                let next = next_record(table, i, end);
                return find_in(lent, i + 1, next, copy.start, copy.number);
            }
            return packed(start, i);
        }
        left -= count;
        address = moved_by(table, i, CHANGE, address);
        i = next_record(table, i, end);
    }
    NOWHERE
}
