// Filling a slice with the variables of a plan, five numbers each: from one variable to the next, copy after copy.
#![tactic(auto)]

ghost use Rattle.std.specs.Prelude.{◌≡◌, ◌≤◌, ◌<◌, ◌+◌, ◌-◌, ◌*◌, ◌/◌, length};
ghost use Rattle.cdi.specs.Rules.{natural};
ghost use Rattle.cdi.specs.Plans.{field};
ghost use Rattle.locate_ways.specs.Finding.{Site};
ghost use Rattle.listing_fill.specs.Filling.{found_at, put, filling, fill, copies_met, element_met, Copying};

use locate_copies::{choose, copies_from, moved_by, next_record};
use locate_rows::{CHANGE, COUNT, EXTRA, KIND, START, rise_at};
use terms::GROUP;

// A variable fills five numbers: record, space, address, size, kind.
pub const EACH: usize = 5;

// Stores a variable as number `k` of the batch.
fn store(out: &mut [u64], k: usize, i: usize, space: u64, address: u64, size: u64, kind: u64)
    requires { k * 5 + 5 ≤ length out.old }
    ensures { out.new ≡ put out.old k (found_at i space address size kind) }
{
    let at = k * EACH;
    out[at] = i as u64;
    out[at + 1] = space;
    out[at + 2] = address;
    out[at + 3] = size;
    out[at + 4] = kind;
}

// Goes on filling with the variables of the element of record `i`, past `skip` of them, and returns how many the batch has then.
#[cycle(fill_copies_fill_element)]
fn fill_element(
    table: &[i64],
    i: usize,
    end: usize,
    address: u64,
    skip: u64,
    space: u64,
    out: &mut [u64],
    room: usize,
    k: usize,
) -> usize
    requires { (i < end) × (end * 8 ≤ length table.now) × (Site table.now i end address) × (skip < natural (field table.now i 6)) × (k < room) × (room * 5 ≤ length out.old) }
    ensures value { result ≡ (fill room (filling skip k out.old) (element_met table.now space i address)).filled }
    ensures out_after { out.new ≡ (fill room (filling skip k out.old) (element_met table.now space i address)).out }
    ensures upper_bound { result ≤ room }
{
    let start = moved_by(table, i, START, address);
    let kind = rise_at(table, i, KIND);
    if kind == GROUP {
        let copy = choose(table, i, start, skip);
        let copies = copies_from(table, i, skip);
        let next = next_record(table, i, end);
        return fill_copies(
            table,
            i + 1,
            next,
            copy.start,
            copies,
            copy.number,
            space,
            out,
            room,
            k,
        );
    }
    let size = rise_at(table, i, EXTRA);
    store(out, k, i, space, start, size, kind);
    k + 1
}

// Goes on filling with the variables of `copies` copies of the records from `from` to before `end`, past `skip` of them.
#[cycle(fill_copies_fill_element)]
pub fn fill_copies(
    table: &[i64],
    from: usize,
    end: usize,
    origin: u64,
    copies: u64,
    skip: u64,
    space: u64,
    out: &mut [u64],
    room: usize,
    filled: usize,
) -> usize
    requires { (from ≤ end) × (end * 8 ≤ length table.now) × (Copying table.now from end origin copies) × (filled ≤ room) × (room * 5 ≤ length out.old) }
    ensures value { result ≡ (fill room (filling skip filled out.old) (copies_met table.now space from end origin copies)).filled }
    ensures out_after { out.new ≡ (fill room (filling skip filled out.old) (copies_met table.now space from end origin copies)).out }
    ensures upper_bound { result ≤ room }
{
    let mut i = from;
    let mut address = origin;
    let mut again = copies;
    let mut left = skip;
    let mut k = filled;
    // A `while`: a step goes past a whole subtree, or back to the first record for the next copy.
    while 0 < again {
        if room <= k {
            return k;
        }
        if end <= i {
            again -= 1;
            i = from;
            continue;
        }
        let count = rise_at(table, i, COUNT);
        let next = next_record(table, i, end);
        let behind = moved_by(table, i, CHANGE, address);
        if count <= left {
            left -= count;
            address = behind;
            i = next;
            continue;
        }
        k = fill_element(table, i, end, address, left, space, out, room, k);
        left = 0;
        address = behind;
        i = next;
    }
    k
}
