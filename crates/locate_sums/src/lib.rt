// The records of a table as extents: that of an element by those of its members, whether its record tells it, and whether all keep the limits.
#![tactic(auto)]

ghost use Rattle.std.specs.Prelude.{◌≡◌, ◌≤◌, ◌+◌, ◌*◌, length};
ghost use Rattle.cdi.specs.Plans.{field};
ghost use Rattle.cdi.specs.Rules.{natural};
ghost use Rattle.extent.specs.Reach.{Small, held};
ghost use Rattle.locate_sums.specs.Sums.{limited, tells, element_extent, added_of};

use extent::{Extent, joined, moved, repeated, stood};
use locate_ranges::equals;
use locate_rows::{CHANGE, COUNT, EXTRA, KIND, REPLICATION, START, fall_at, field, rise_at};
use terms::{GROUP, LAST_ADDRESS, MOST_VARIABLES};

// Whether the extent keeps the limits of addresses, from some start, and of variables.
#[tactic(auto, unfolding(crate::specs::Sums::limited))]
fn limited(e: Extent) -> bool
    ensures { result ≡ limited e }
{
    e.span <= LAST_ADDRESS && e.count <= MOST_VARIABLES
}

// The extent of the element of record `i`, from that of its members.
fn element(table: &[i64], i: usize, members: Extent) -> Extent
    requires { (i * 8 + 8 ≤ length table.now) × (1 ≤ natural (field table.now i 4)) × (natural (field table.now i 4) ≤ 2147483647) × Small members }
    ensures { (result ≡ held (element_extent table.now i members)) × Small result }
{
    let own = moved(field(table, i, START));
    if rise_at(table, i, KIND) == GROUP {
        joined(own, repeated(rise_at(table, i, REPLICATION), members))
    } else {
        joined(own, stood(rise_at(table, i, EXTRA)))
    }
}

// Whether the last two numbers of record `i` are what this extent says.
pub fn told(table: &[i64], i: usize, e: Extent) -> bool
    requires { (i * 8 + 8 ≤ length table.now) × Small e }
    ensures { result ≡ tells table.now i e }
{
    equals(table, i, COUNT, e.count)
        && rise_at(table, i, CHANGE) + e.below == fall_at(table, i, CHANGE) + e.ends
}

// The extent of what stands before record `i` and of its element, if that keeps the limits and is told.
#[tactic(auto, using(crate::proofs::Limits::added_law))]
pub fn added(table: &[i64], i: usize, members: Extent, before: Extent) -> Option<Extent>
    requires { (i * 8 + 8 ≤ length table.now) × (1 ≤ natural (field table.now i 4)) × (natural (field table.now i 4) ≤ 2147483647) × Small members × Small before }
    ensures { result ≡ added_of table.now i members before }
{
    let own = element(table, i, members);
    let whole = joined(before, own);
    if limited(own) && told(table, i, own) && limited(whole) {
        Some(whole)
    } else {
        None
    }
}
