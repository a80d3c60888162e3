// The lines of a plan's variables from one on.
#![tactic(auto)]

ghost use Rattle.std.specs.Prelude.{◌≡◌, true, [], ◌*◌, ◌/◌, ◌≤◌, length, take};
ghost use Rattle.cdi.specs.Walk.{walk};
ghost use Rattle.cdi.specs.Plans.{segments_of, is_plan};
ghost use Rattle.listing_fill.specs.Batch.{batch};
ghost use Rattle.lines_items.specs.Bytes.{lines_of};

use lines::put_lines;
use listing::list_known;

// So many variables, and so many bytes for their lines.
#[derive(Clone, Copy)]
pub struct Batch {
    pub count: usize,
    pub size: usize,
}

// The lines of the variables n, n + 1, .. of a plan, as many as there is room for.
pub fn lines_from(table: &[i64], n: u64, numbers: &mut [u64], out: &mut [u8]) -> Batch
    requires { (is_plan table.now ≡ true) × (length numbers.old / 5 * 92 ≤ length out.old) × (n ≤ 1000000) }
    ensures put { take result.size out.new ≡ lines_of [] n (batch (walk (segments_of table.now)) n numbers.old) }
    ensures all { result.count ≡ length (batch (walk (segments_of table.now)) n numbers.old) }
    ensures ends { (result.size ≤ length out.old) × (result.count ≤ length numbers.old) }
{
    let count = list_known(table, n, numbers);
    let size = put_lines(out, n, numbers, count);
    Batch { count, size }
}
