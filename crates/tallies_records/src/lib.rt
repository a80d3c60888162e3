// The record of an element: eight numbers at the index that was kept for it. Rows that have no room for it are left as they are.
#![tactic(auto)]

ghost use Rattle.std.specs.Prelude.{◌≡◌, ◌+◌, ◌*◌, ◌%◌, ◌^◌, ◌≤◌, ◌<◌, length};
ghost use Rattle.std.proofs.lemmas.List.Edits.{sets};
ghost use Rattle.extent.specs.Reach.{Small};
ghost use Rattle.tallies_records.specs.Fields.{fields_of};

use extent::Extent;
use terms::FIELDS;

// Writes the eight numbers of a record from this place on.
fn put(
    rows: &mut [i64],
    at: usize,
    kind: usize,
    place: usize,
    address: i64,
    width: u64,
    copies: u64,
    next: usize,
    told: Extent,
)
    requires { (at + 8 ≤ length rows.old) × (kind < 2 ^ 63) × (place < 2 ^ 63) × (width < 2 ^ 63) × (copies < 2 ^ 63) × (next < 2 ^ 63) × Small told }
    ensures { (rows.new ≡ sets rows.old at (fields_of kind place address width copies next told)) × (length rows.new ≡ length rows.old) }
{
    rows[at] = kind as i64;
    rows[at + 1] = place as i64;
    rows[at + 2] = address;
    rows[at + 3] = width as i64;
    rows[at + 4] = copies as i64;
    rows[at + 5] = next as i64;
    rows[at + 6] = told.count as i64;
    rows[at + 7] = told.ends as i64 - told.below as i64;
}

// Writes the record of that index, where the rows have room for it.
pub fn write_record(
    rows: &mut [i64],
    index: usize,
    kind: usize,
    place: usize,
    address: i64,
    width: u64,
    copies: u64,
    next: usize,
    told: Extent,
)
    requires { (length rows.old % 8 ≡ 0) × (index < 65536) × (kind < 2 ^ 63) × (place < 2 ^ 63) × (width < 2 ^ 63) × (copies < 2 ^ 63) × (next < 2 ^ 63) × Small told }
    ensures rows_after { rows.new ≡ sets rows.old (index * 8) (fields_of kind place address width copies next told) }
    ensures length { length rows.new ≡ length rows.old }
{
    let at = index * FIELDS;
    if at + FIELDS <= rows.len() {
        put(rows, at, kind, place, address, width, copies, next, told);
    }
}
