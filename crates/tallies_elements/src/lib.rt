// The parts of leaving an element: the extent of a data element, and the numbers of its record; a segment's origin, and the first that leaves the
// addresses; the variables.
#![tactic(auto)]

ghost use Rattle.std.specs.Prelude.{◌≡◌, cond, ◌^◌, ◌≤◌, ◌<◌, min, eqb};
ghost use Rattle.cdi.specs.Rules.{natural};
ghost use Rattle.extent.specs.Reach.{Small};
ghost use Rattle.tally_tag.specs.Tallying.{first_leaving};
ghost use Rattle.tally_tag.specs.Numbered.{own_by};
ghost use Rattle.tags_numbers.specs.Given.{Bounded, numbers_of};
ghost use Rattle.tallies_state.specs.Flat.{leaves_of};

use extent::Extent;
use tags_numbers::Given;
use tallies_state::{GROUP, NEVER};
use terms::MOST_VARIABLES;

// The extent of a data element: its offset, then its size or its copies.
pub fn own_extent(element: usize, m: Given, inside: Extent) -> Extent
    requires { Small inside × (m.width ≤ 65535) × (1 ≤ m.copies) × (m.copies ≤ 2147483647) }
    ensures { (result ≡ own_by element (numbers_of m) inside) × Small result }
{
    let offset = extent::moved(m.address);
    if element == GROUP {
        let all = extent::repeated(m.copies, inside);
        return extent::joined(offset, all);
    }
    let size = Extent {
        count: 1,
        below: 0,
        ends: m.width,
        span: m.width,
    };
    extent::joined(offset, size)
}

// The width in a data element's record: 0 for a group, or the size.
pub fn width_of(element: usize, width: u64) -> u64
    requires { width ≤ 65535 }
    ensures { (result ≡ cond (eqb element 5) 0 width) × (result ≤ 65535) }
{
    if element == GROUP {
        return 0;
    }
    width
}

// The copies in a data element's record: a group's replication, or 1.
pub fn copies_of(element: usize, copies: u64) -> u64
    requires { copies ≤ 2147483647 }
    ensures { (result ≡ cond (eqb element 5) copies 1) × (result ≤ 2147483647) }
{
    if element == GROUP {
        return copies;
    }
    1
}

// The variables up to 1,000,001, which stands for too many.
pub fn capped(total: u64) -> u64
    ensures { (result ≡ min total 1000001) × (result ≤ 1000001) }
{
    if MOST_VARIABLES < total {
        return MOST_VARIABLES + 1;
    }
    total
}

// A segment's origin.
pub fn origin_of(m: Given) -> u64
    requires { Bounded 4 m }
    ensures { (result ≡ natural m.address) × (result ≤ 2147483647) }
{
    m.address as u64
}

// The first segment that leaves the addresses, of those before and the one at this place.
pub fn first_leaving(keeps: bool, at: usize, leaves: usize) -> usize
    requires { at < 2 ^ 63 }
    ensures { leaves_of result ≡ first_leaving keeps at (leaves_of leaves) }
{
    if leaves == NEVER {
        if keeps {
            return NEVER;
        }
        return at;
    }
    leaves
}
