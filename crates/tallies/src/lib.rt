// Leaving an element: what is known of the walk behind it, and the record that is written then. Nothing here can overflow.
#![tactic(auto)]

ghost use Rattle.std.specs.Prelude.{◌≡◌, cond, ◌%◌, ◌^◌, ◌≤◌, ◌<◌, eqb, length};
ghost use Rattle.tally_tag.specs.Numbered.{leave_by, written_by};
ghost use Rattle.tags_numbers.specs.Given.{Bounded, numbers_of};
ghost use Rattle.tallies_state.specs.Flat.{tally_of, Kept};

use tags_numbers::Given;
use tallies_elements::{capped, copies_of, first_leaving, origin_of, own_extent, width_of};
use tallies_records::write_record;
use tallies_state::{ASIDE, Tally, is_data, is_segment};

// The kind of a segment in its record, and what the number of a data element's name is above its kind.
const KIND_SEGMENT: usize = 1;

const ABOVE_KIND: usize = 3;

// What is known behind a segment: its variables are counted and its addresses looked at.
fn behind_segment(g: Tally, at: usize, m: Given, inner: Tally, rows: &mut [i64]) -> Tally
    requires { (g.level ≡ 1) × Kept g × Kept inner × Bounded 4 m × (at < 2 ^ 63) × (g.records < 65536) × (inner.records < 65536) × (length rows.old % 8 ≡ 0) }
    ensures result_value { tally_of result ≡ leave_by (tally_of g) at 4 (numbers_of m) (tally_of inner) }
    ensures root { result.root ≡ inner.root }
    ensures kept { Kept result × (result.records ≡ inner.records) }
    ensures rows { rows.new ≡ written_by (tally_of g) at 4 (numbers_of m) (tally_of inner) rows.old }
    ensures length { length rows.new ≡ length rows.old }
{
    let before = g.extent;
    let content = inner.extent;
    write_record(
        rows,
        g.records,
        KIND_SEGMENT,
        at,
        m.address,
        m.width,
        1,
        inner.records,
        content,
    );
    let total = capped(inner.total + content.count);
    let keeps = extent::fits(origin_of(m), content);
    let leaves = first_leaving(keeps, at, inner.leaves);
    Tally {
        extent: before,
        level: g.level,
        records: inner.records,
        total,
        leaves,
        root: inner.root,
    }
}

// What is known behind a data element: its extent is joined to those before it.
fn behind_data(
    g: Tally,
    at: usize,
    element: usize,
    m: Given,
    inner: Tally,
    rows: &mut [i64],
) -> Tally
    requires { (g.level ≡ 2) × (5 ≤ element) × (element ≤ 9) × Kept g × Kept inner × Bounded element m × (at < 2 ^ 63) × (g.records < 65536) × (inner.records < 65536) × (length rows.old % 8 ≡ 0) }
    ensures result_value { tally_of result ≡ leave_by (tally_of g) at element (numbers_of m) (tally_of inner) }
    ensures root { result.root ≡ inner.root }
    ensures kept { Kept result × (result.records ≡ inner.records) }
    ensures rows { rows.new ≡ written_by (tally_of g) at element (numbers_of m) (tally_of inner) rows.old }
    ensures length { length rows.new ≡ length rows.old }
{
    let before = g.extent;
    let content = inner.extent;
    let told = own_extent(element, m, content);
    let width = width_of(element, m.width);
    let copies = copies_of(element, m.copies);
    write_record(
        rows,
        g.records,
        element - ABOVE_KIND,
        at,
        m.address,
        width,
        copies,
        inner.records,
        told,
    );
    let extent = extent::joined(before, told);
    Tally {
        extent,
        level: g.level,
        records: inner.records,
        total: inner.total,
        leaves: inner.leaves,
        root: inner.root,
    }
}

// The level behind any other element: the text has one root.
fn level_behind(level: usize) -> usize
    ensures { result ≡ cond (eqb level 0) 3 level }
{
    if level == 0 {
        return ASIDE;
    }
    level
}

// What is known behind the element that stands at this place: `g` before it, `m` by its tag, `inner` behind its content. Its record is written,
// where it gets one and the rows have room for it.
pub fn leave(g: Tally, at: usize, element: usize, m: Given, inner: Tally, rows: &mut [i64]) -> Tally
    requires { Kept g × Kept inner × Bounded element m × (at < 2 ^ 63) × (g.records < 65536) × (inner.records < 65536) × (length rows.old % 8 ≡ 0) }
    ensures result_value { tally_of result ≡ leave_by (tally_of g) at element (numbers_of m) (tally_of inner) }
    ensures root { result.root ≡ inner.root }
    ensures kept { Kept result × (result.records ≡ inner.records) }
    ensures rows { rows.new ≡ written_by (tally_of g) at element (numbers_of m) (tally_of inner) rows.old }
    ensures length { length rows.new ≡ length rows.old }
{
    if is_segment(g.level, element) {
        return behind_segment(g, at, m, inner, rows);
    }
    if is_data(g.level, element) {
        return behind_data(g, at, element, m, inner, rows);
    }
    let before = g.extent;
    let level = level_behind(g.level);
    Tally {
        extent: before,
        level,
        records: inner.records,
        total: inner.total,
        leaves: inner.leaves,
        root: inner.root,
    }
}
