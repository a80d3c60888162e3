// Where a table keeps the numbers of its records, how they are read, and two tables compared.
#![tactic(auto)]

ghost use Rattle.std.specs.Prelude.{◌≡◌, ◌≤◌, ◌<◌, ◌+◌, ◌*◌, ◌^◌, length, neg_ℤ};
ghost use Rattle.cdi.specs.Rules.{natural};
ghost use Rattle.cdi.specs.Plans.{field};
ghost use Rattle.cdi.specs.Table.{same_table};

use extent::{fall, rise};
use terms::FIELDS;

// The numbers of a record, in document 01's order.
pub const KIND: usize = 0;

pub const PLACE: usize = 1;

pub const START: usize = 2;

pub const EXTRA: usize = 3;

pub const REPLICATION: usize = 4;

pub const NEXT: usize = 5;

pub const COUNT: usize = 6;

pub const CHANGE: usize = 7;

// Number `which` of record `i`, both counted from 0: the one place that knows where a table keeps it.
pub fn field(table: &[i64], i: usize, which: usize) -> i64
    requires { (i * 8 + 8 ≤ length table.now) × (which < 8) }
    ensures { result ≡ field table.now i which }
{
    table[i * FIELDS + which]
}

// What that number adds where it isn't negative, else 0.
pub fn rise_at(table: &[i64], i: usize, which: usize) -> u64
    requires { (i * 8 + 8 ≤ length table.now) × (which < 8) }
    ensures { (result ≡ natural (field table.now i which)) × (result < 2 ^ 63) }
{
    rise(field(table, i, which))
}

// The same where it is known not to be negative, so that its sign isn't tested.
pub fn natural_at(table: &[i64], i: usize, which: usize) -> u64
    requires { (i * 8 + 8 ≤ length table.now) × (which < 8) × (natural (neg_ℤ (field table.now i which)) ≤ 0) }
    ensures { (result ≡ natural (field table.now i which)) × (result < 2 ^ 63) }
{
    field(table, i, which) as u64
}

// What it takes away where it is negative, else 0.
pub fn fall_at(table: &[i64], i: usize, which: usize) -> u64
    requires { (i * 8 + 8 ≤ length table.now) × (which < 8) }
    ensures { (result ≡ natural (neg_ℤ (field table.now i which))) × (result ≤ 2 ^ 63) }
{
    fall(field(table, i, which))
}

// Are the two tables the same?
pub fn is_same(a: &[i64], b: &[i64]) -> bool
    ensures { result ≡ same_table a.now b.now }
{
    a == b
}
