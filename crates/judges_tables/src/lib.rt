// The table of elements, looked up by element number: a child's entry in its parent's row, and whether it stands in its turn. Row 0 is the text
// itself; rows from 12 on are those of elements that hold text only.
#![tactic(auto)]

ghost use Rattle.std.specs.Prelude.{◌≡◌, ◌≤◌, ◌<◌, eqb, get_or};
ghost use Rattle.rules_judge.specs.Judging.{row_at};
ghost use Rattle.rules_judge.specs.Tables.{entry_at, many_at, in_turn};
ghost use Rattle.rules_judge.specs.Parts.{is_numeric};
ghost use Rattle.rules_judge.specs.Octal.{row_numbers, digit_at, first_at};

// The rows of the text itself, cdi, identification, acdi, segment, group, int, string, eventid, float, map and relation as octal numbers: a digit for
// the entry of each child, the first child's the last. Rows before that of int begin with child 0, the others with map, which is number 10.
const ROWS: [u64; 12] = [
    0o10,
    0o32100,
    0o4321_05_00000_00000,
    0,
    0o21_000000_33333_00000,
    0o321_000000_44444_00000,
    0o543_021_000006,
    0o21_000003,
    0o21_000003,
    0o543_021_000006,
    0o21_000030,
    0o21_000000_000000,
];

// The entry of each row at which more than one child may stand, or 0, as one octal number: that of the first row is the last digit.
const MANY: u64 = 0o3_0000_43_00_30;

// The row of that number; those of elements that hold text only have no child.
fn row_of(row: usize) -> u64
    ensures { result ≡ get_or row_numbers row 0 }
{
    if row < 12 {
        return ROWS[row];
    }
    0
}

// The number of the first child that a row has a digit for.
fn first_of(row: usize) -> usize
    ensures { result ≡ first_at row }
{
    if row < 6 {
        return 0;
    }
    10
}

// An octal digit of a number, counted from the last.
fn digit(number: u64, index: usize) -> usize
    requires { index < 21 }
    ensures { result ≡ digit_at number index }
{
    ((number >> (3 * index)) % 8) as usize
}

// The entry of a child in a row, counted from 1, or 0 where the row lacks it.
pub fn entry_of(row: usize, child: usize) -> usize
    requires { child < 24 }
    ensures { result ≡ entry_at row child }
{
    let first = first_of(row);
    if child < first {
        return 0;
    }
    let index = child - first;
    if index < 21 {
        return digit(row_of(row), index);
    }
    0
}

// The entry of the row at which more than one child may stand, or 0.
fn many_of(row: usize) -> usize
    ensures { result ≡ many_at row }
{
    if row < 12 {
        return digit(MANY, row);
    }
    0
}

// Does a child of this entry stand neither out of order nor too often, behind one of the last entry?
pub fn is_in_turn(row: usize, last: usize, entry: usize) -> bool
    ensures { result ≡ in_turn last entry (eqb entry (many_at row)) }
{
    if entry < last {
        return false;
    }
    if entry == many_of(row) {
        return true;
    }
    entry != last
}

// Does the element hold text?
pub fn holds_text(row: usize) -> bool
    ensures { result ≡ (row_at row).text }
{
    12 <= row
}

// Is it the number of min, max, default or property?
pub fn is_numeric(element: usize) -> bool
    ensures { result ≡ is_numeric element }
{
    (19 <= element) & (element <= 22)
}
