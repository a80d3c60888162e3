// The copies of a group, by its record alone: where each starts, and which one holds a variable.
#![tactic(auto)]

ghost use Rattle.std.specs.Prelude.{◌≡◌, ◌≤◌, ◌<◌, ◌+◌, ◌-◌, ◌*◌, ◌/◌, ◌^◌, length, neg_ℤ, ◌-ℤ◌};
ghost use Rattle.cdi.specs.Rules.{natural};
ghost use Rattle.cdi.specs.Plans.{field};
ghost use Rattle.locate_copies.specs.Choosing.{moved_by, all_rise, all_fall, each_of, copy_at, copy_of, Chosen};

use extent::{fall, rise};
use locate_rows::{CHANGE, COUNT, NEXT, REPLICATION, START, field, natural_at, rise_at};

// One copy of a group's members: the address it starts at, and the number of the sought variable in it.
#[derive(Clone, Copy)]
pub struct Copied {
    pub start: u64,
    pub number: u64,
}

// The address changed by number `which` of record `i`.
pub fn moved_by(table: &[i64], i: usize, which: usize, address: u64) -> u64
    requires { (i * 8 + 8 ≤ length table.now) × (which < 8) × (address ≤ 2 ^ 32) × (natural (neg_ℤ (field table.now i which)) ≤ address)
        × (natural (field table.now i which) ≤ 2 ^ 32) }
    ensures { result ≡ moved_by table.now i which address }
{
    let by = field(table, i, which);
    (address as i64 + by) as u64
}

// What all copies of group `i` change the address by together: its change less its own offset.
fn all_change(table: &[i64], i: usize) -> i64
    requires { (i * 8 + 8 ≤ length table.now) × (all_rise table.now i ≤ 2 ^ 33) × (all_fall table.now i ≤ 2 ^ 33) }
    ensures { result ≡ field table.now i 7 -ℤ field table.now i 2 }
{
    let change = field(table, i, CHANGE);
    let offset = field(table, i, START);
    change - offset
}

// The variables of one copy of group `i`.
pub fn each(table: &[i64], i: usize) -> u64
    requires { (i * 8 + 8 ≤ length table.now) × (1 ≤ natural (field table.now i 4)) }
    ensures { result ≡ each_of table.now i }
{
    let count = rise_at(table, i, COUNT);
    let replication = natural_at(table, i, REPLICATION);
    count / replication
}

// Where copy `q` of group `i` starts, counted from 0, if the first starts at `first`.
fn copy_at(table: &[i64], i: usize, first: u64, q: u64) -> u64
    requires { (i * 8 + 8 ≤ length table.now) × (1 ≤ natural (field table.now i 4))
        × (first + q * ((all_rise table.now i - all_fall table.now i) / natural (field table.now i 4)) ≤ 2 ^ 32)
        × (q * ((all_fall table.now i - all_rise table.now i) / natural (field table.now i 4)) ≤ first)
        × (all_rise table.now i ≤ 2 ^ 33) × (all_fall table.now i ≤ 2 ^ 33) }
    ensures { result ≡ copy_at table.now i first q }
{
    let change = all_change(table, i);
    let up = rise(change);
    let down = fall(change);
    let replication = natural_at(table, i, REPLICATION);
    if down == 0 {
        first + q * (up / replication)
    } else {
        first - q * (down / replication)
    }
}

// The copy of group `i` that holds variable `n` of all its copies. A group of one copy, the usual one, is entered without a division.
pub fn choose(table: &[i64], i: usize, first: u64, n: u64) -> Copied
    requires { (i * 8 + 8 ≤ length table.now) × Chosen table.now i first n }
    ensures { result ≡ copy_of table.now i first n }
{
    if natural_at(table, i, REPLICATION) == 1 {
        return Copied {
            start: first,
            number: n,
        };
    }
    let variables = each(table, i);
    Copied {
        start: copy_at(table, i, first, n / variables),
        number: n % variables,
    }
}

// The number of the record after the subtree of record `i`.
pub fn next_record(table: &[i64], i: usize, end: usize) -> usize
    requires { (i * 8 + 8 ≤ length table.now) × (i < natural (field table.now i 5)) × (natural (field table.now i 5) ≤ end) }
    ensures { (result ≡ natural (field table.now i 5)) × (i < result) × (result ≤ end) }
{
    natural_at(table, i, NEXT) as usize
}

// The copies of group `i` from the one that holds variable `n` of them on.
pub fn copies_from(table: &[i64], i: usize, n: u64) -> u64
    requires { (i * 8 + 8 ≤ length table.now) × (1 ≤ natural (field table.now i 4)) × (1 ≤ natural (field table.now i 6) / natural (field table.now i 4)) × (n / (natural (field table.now i 6) / natural (field table.now i 4)) ≤ natural (field table.now i 4)) }
    ensures { result ≡ natural (field table.now i 4) - n / (natural (field table.now i 6) / natural (field table.now i 4)) }
{
    let variables = each(table, i);
    let replication = rise_at(table, i, REPLICATION);
    replication - n / variables
}
