// What is known of the walk while the elements are read, as flat numbers, and what is known inside an element before its content.
#![tactic(auto)]

ghost use Rattle.std.specs.Prelude.{◌≡◌, cond, ◌||◌, ◌+◌, ◌≤◌, ◌<◌, eqb};
ghost use Rattle.tally_tag.specs.Tallying.{at_start};
ghost use Rattle.tally_tag.specs.Numbered.{segment_at, data_at, group_at, recorded_by, level_by, enter_by};
ghost use Rattle.tallies_state.specs.Flat.{tally_of, Kept};

use extent::Extent;

// The extent of a level's data elements so far, and of the whole text the records, the variables of the segments that have ended, at most
// 1,000,001, the place of the first segment that leaves the addresses, and the root's place, which is 0 as long as it hasn't begun. Level 0 is the
// text, 1 the root, 2 a segment or a group; in anything else, 3, nothing is described.
#[derive(Clone, Copy)]
pub struct Tally {
    pub extent: Extent,
    pub level: usize,
    pub records: usize,
    pub total: u64,
    pub leaves: usize,
    pub root: usize,
}

// No segment leaves the addresses.
pub const NEVER: usize = 0xFFFF_FFFF_FFFF_FFFF;

// The numbers of the names that are told apart.
const SEGMENT: usize = 4;

pub const GROUP: usize = 5;

const LAST_DATA: usize = 9;

// Below the root nothing but segments is described, and in these nothing but data elements; elsewhere nothing.
const ROOT: usize = 1;

const DATA: usize = 2;

pub const ASIDE: usize = 3;

// Is it a segment, where segments stand?
pub fn is_segment(level: usize, element: usize) -> bool
    ensures { result ≡ segment_at level element }
{
    (level == ROOT) & (element == SEGMENT)
}

// Is it a data element, where data elements stand?
pub fn is_data(level: usize, element: usize) -> bool
    ensures { result ≡ data_at level element }
{
    (level == DATA) & ((GROUP <= element) & (element <= LAST_DATA))
}

// Does the element get a record?
fn is_recorded(level: usize, element: usize) -> bool
    ensures { result ≡ recorded_by level element }
{
    is_segment(level, element) | is_data(level, element)
}

// Is it a segment or a group, in which data elements stand?
fn is_holder(level: usize, element: usize) -> bool
    ensures { result ≡ (segment_at level element || group_at level element) }
{
    is_segment(level, element) | ((level == DATA) & (element == GROUP))
}

// The level inside the element.
fn level_in(level: usize, element: usize) -> usize
    ensures { result ≡ level_by level element }
{
    if level == 0 {
        return ROOT;
    }
    if is_holder(level, element) {
        return DATA;
    }
    ASIDE
}

// The records with that of the element, where it gets one.
fn records_with(level: usize, element: usize, records: usize) -> usize
    requires { records < 65536 }
    ensures { (result ≡ cond (recorded_by level element) (records + 1) records) × (records ≤ result) × (result ≤ records + 1) }
{
    if is_recorded(level, element) {
        return records + 1;
    }
    records
}

// The root's place, when an element begins at this place.
fn root_with(level: usize, at: usize, root: usize) -> usize
    ensures { result ≡ cond (eqb level 0) at root }
{
    if level == 0 {
        return at;
    }
    root
}

// What is known before the text.
pub fn start() -> Tally
    ensures result_value { tally_of result ≡ at_start }
    ensures root { result.root ≡ 0 }
    ensures kept { Kept result × (result.records ≤ 0) }
{
    let extent = extent::nothing();
    Tally {
        extent,
        level: 0,
        records: 0,
        total: 0,
        leaves: NEVER,
        root: 0,
    }
}

// What is known inside the element that stands at this place, before its content.
pub fn enter(g: Tally, at: usize, element: usize) -> Tally
    requires { (g.records < 65536) × (g.total ≤ 1000001) }
    ensures result_value { tally_of result ≡ enter_by (tally_of g) element }
    ensures root { result.root ≡ cond (eqb g.level 0) at g.root }
    ensures kept { Kept result × (g.records ≤ result.records) × (result.records ≤ g.records + 1) }
{
    let extent = extent::nothing();
    let level = level_in(g.level, element);
    let records = records_with(g.level, element, g.records);
    let root = root_with(g.level, at, g.root);
    Tally {
        extent,
        level,
        records,
        total: g.total,
        leaves: g.leaves,
        root,
    }
}
