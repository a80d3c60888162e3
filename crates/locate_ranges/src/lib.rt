// The numbers of one record that lie in document 01's ranges.
#![tactic(auto)]

ghost use Rattle.std.specs.Prelude.{◌≡◌, [], ◌∷◌, ◌≤◌, ◌<◌, ◌+◌, ◌-◌, ◌*◌, length, pos, eqb};
ghost use Rattle.std.specs.Int.Signed.{lt_z};
ghost use Rattle.cdi.specs.Numbers.{within};
ghost use Rattle.cdi.specs.Rules.{natural};
ghost use Rattle.cdi.specs.Table.{same_number};
ghost use Rattle.cdi.specs.Plans.{field, one_of, size_fits, offset_fits, replication_fits, place_fits, next_fits, item_fits, segment_fits};

use locate_rows::{EXTRA, KIND, NEXT, PLACE, REPLICATION, START, fall_at, field, rise_at};
use terms::{
    EVENTID, FIRST_LINE, FLOAT, GROUP, INT, MOST_DOWN, MOST_SIGNED, MOST_SPACE, MOST_TEXT, SEGMENT,
    STRING,
};

// "places rise strictly, from 22 to 65,534"
const FIRST_PLACE: u64 = FIRST_LINE as u64;

const LAST_PLACE: u64 = 65534;

// Whether number `which` of record `i` lies from `least` to `most`.
#[tactic(auto, using(locate_rows::proofs::Numbers::lies_law))]
fn lies(table: &[i64], i: usize, which: usize, least: u64, most: u64) -> bool
    requires { (i * 8 + 8 ≤ length table.now) × (which < 8) }
    ensures { result ≡ within (pos least) (pos most) (field table.now i which) }
{
    let below = fall_at(table, i, which);
    let number = rise_at(table, i, which);
    below == 0 && least <= number && number <= most
}

// Whether number `which` of record `i` is `number`.
#[tactic(auto, using(locate_rows::proofs::Numbers::equals_law))]
pub fn equals(table: &[i64], i: usize, which: usize, number: u64) -> bool
    requires { (i * 8 + 8 ≤ length table.now) × (which < 8) }
    ensures { result ≡ same_number (field table.now i which) (pos number) }
{
    let below = fall_at(table, i, which);
    let it = rise_at(table, i, which);
    below == 0 && it == number
}

// "a float's 2, 4 or 8"
#[tactic(auto, unfolding(cdi::specs::Plans::one_of, cdi::specs::Lists::any))]
fn float_size(table: &[i64], i: usize) -> bool
    requires { i * 8 + 8 ≤ length table.now }
    ensures { result ≡ one_of (2 ∷ 4 ∷ 8 ∷ []) (field table.now i 3) }
{
    equals(table, i, EXTRA, 2) || equals(table, i, EXTRA, 4) || equals(table, i, EXTRA, 8)
}

// "An int's size is exactly the text 1, 2, 4 or 8"
#[tactic(auto, unfolding(cdi::specs::Plans::one_of, cdi::specs::Lists::any))]
fn int_size(table: &[i64], i: usize) -> bool
    requires { i * 8 + 8 ≤ length table.now }
    ensures { result ≡ one_of (1 ∷ 2 ∷ 4 ∷ 8 ∷ []) (field table.now i 3) }
{
    equals(table, i, EXTRA, 1) || float_size(table, i)
}

// Whether the kind is that of a data element, and the size is one of it.
#[tactic(auto, using(locate_rows::proofs::Numbers::only), unfolding(cdi::specs::Plans::size_fits))]
fn size_fits(table: &[i64], i: usize) -> bool
    requires { i * 8 + 8 ≤ length table.now }
    ensures { result ≡ size_fits (natural (field table.now i 0)) (field table.now i 3) }
{
    match rise_at(table, i, KIND) {
        GROUP => equals(table, i, EXTRA, 0),
        INT => int_size(table, i),
        STRING => lies(table, i, EXTRA, 1, MOST_TEXT),
        EVENTID => equals(table, i, EXTRA, 8),
        FLOAT => float_size(table, i),
        _ => false,
    }
}

// Whether the offset is a 32-bit signed number.
#[tactic(auto, using(locate_rows::proofs::Numbers::offset_law))]
fn offset_fits(table: &[i64], i: usize) -> bool
    requires { i * 8 + 8 ≤ length table.now }
    ensures { result ≡ offset_fits (field table.now i 2) }
{
    let up = rise_at(table, i, START);
    let down = fall_at(table, i, START);
    up <= MOST_SIGNED && down <= MOST_DOWN
}

// Whether the replication is one of a group, or 1 for any other kind.
fn replication_fits(table: &[i64], i: usize) -> bool
    requires { i * 8 + 8 ≤ length table.now }
    ensures { result ≡ replication_fits (natural (field table.now i 0)) (field table.now i 4) }
{
    if rise_at(table, i, KIND) == GROUP {
        lies(table, i, REPLICATION, 1, MOST_SIGNED)
    } else {
        equals(table, i, REPLICATION, 1)
    }
}

// Whether the place before it is smaller.
fn rises(table: &[i64], i: usize) -> bool
    requires { (1 ≤ i) × (i * 8 + 8 ≤ length table.now) }
    ensures { result ≡ lt_z (field table.now (i - 1) 1) (field table.now i 1) }
{
    let before = field(table, i - 1, PLACE);
    let here = field(table, i, PLACE);
    before < here
}

// Whether the place is one of content behind the first line, and behind the place before it.
#[tactic(auto, unfolding(cdi::specs::Plans::place_fits))]
fn place_fits(table: &[i64], i: usize) -> bool
    requires { i * 8 + 8 ≤ length table.now }
    ensures { result ≡ place_fits table.now i }
{
    lies(table, i, PLACE, FIRST_PLACE, LAST_PLACE) && (i == 0 || rises(table, i))
}

// Whether the subtree ends at `end` or before; that of a variable with its own record.
fn next_fits(table: &[i64], i: usize, end: usize) -> bool
    requires { i * 8 + 8 ≤ length table.now }
    ensures { result ≡ next_fits (eqb (natural (field table.now i 0)) 2) i end (field table.now i 5) }
{
    let least = i as u64 + 1;
    if rise_at(table, i, KIND) == GROUP {
        lies(table, i, NEXT, least, end as u64)
    } else {
        equals(table, i, NEXT, least)
    }
}

// Whether the record is one of a data element whose parent's subtree ends at `end`.
#[tactic(auto, unfolding(cdi::specs::Plans::item_fits))]
pub fn item_fits(table: &[i64], i: usize, end: usize) -> bool
    requires { i * 8 + 8 ≤ length table.now }
    ensures { result ≡ item_fits table.now i end }
{
    size_fits(table, i)
        && place_fits(table, i)
        && offset_fits(table, i)
        && replication_fits(table, i)
        && next_fits(table, i, end)
}

// Whether the record is one of a segment in a table of `end` records.
#[tactic(auto, using(locate_rows::proofs::Numbers::only), unfolding(cdi::specs::Plans::segment_fits, cdi::specs::Plans::replication_fits, cdi::specs::Plans::next_fits))]
pub fn segment_fits(table: &[i64], i: usize, end: usize) -> bool
    requires { i * 8 + 8 ≤ length table.now }
    ensures { result ≡ segment_fits table.now i end }
{
    rise_at(table, i, KIND) == SEGMENT
        && place_fits(table, i)
        && lies(table, i, START, 0, MOST_SIGNED)
        && lies(table, i, EXTRA, 0, MOST_SPACE)
        && equals(table, i, REPLICATION, 1)
        && lies(table, i, NEXT, i as u64 + 1, end as u64)
}
