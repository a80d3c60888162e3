// Entering a child: order, count and attributes are judged by the parent's row.
#![tactic(auto)]

ghost use Rattle.std.specs.Prelude.{◌≡◌, ◌≤◌, ◌<◌};
ghost use Rattle.keys.specs.Keys.{fault_in};
ghost use Rattle.rules_judge.specs.Judging.{blamed};
ghost use Rattle.rules_judge.specs.Tables.{turn_number};
ghost use Rattle.judges_state.specs.Decoded.{least_in, judge_of, Placed};
ghost use Rattle.judges_state.specs.Steps.{row_in, tag_faults, entered_by};

use judges_state::{FOREIGN, Judge, fresh};
use judges_tables::is_in_turn;
use keys::{blame, first_of};

// The number of the row inside a child: a child without an entry isn't judged.
fn row_in(entry: usize, child: usize) -> usize
    ensures { result ≡ row_in entry child }
{
    if entry == 0 {
        return FOREIGN;
    }
    child
}

// The number of the fault of a child that doesn't stand in its turn.
fn turn_number(last: usize, entry: usize) -> usize
    ensures value { result ≡ turn_number last entry }
    ensures bounds { result < 128 }
{
    if entry < last {
        return 82;
    }
    83
}

// The least with the faults of a tag, by its entry, its turn, and the key of the least of its attributes' faults.
fn tag_blame(
    least: usize,
    at: usize,
    row: usize,
    last: usize,
    entry: usize,
    turn: bool,
    told: usize,
) -> usize
    requires { at ≤ 65535 }
    ensures { least_in result ≡ blamed (least_in least) (tag_faults at row last entry turn (fault_in told)) }
{
    if entry == 0 {
        if row == FOREIGN {
            return least;
        }
        return blame(least, 81, at);
    }
    if turn {
        return first_of(least, told);
    }
    blame(least, turn_number(last, entry), at)
}

// The judge inside the child of this number and entry, whose tag stands at this place. `told` is the key of the least of its attributes' faults.
pub fn enter(j: Judge, at: usize, child: usize, entry: usize, told: usize) -> Judge
    requires { at ≤ 65535 }
    ensures result_value { judge_of result ≡ entered_by (judge_of j) at child entry (fault_in told) }
    ensures places { Placed result }
{
    let turn = is_in_turn(j.row, j.last, entry);
    let least = tag_blame(j.least, at, j.row, j.last, entry, turn, told);
    let row = row_in(entry, child);
    fresh(least, row, j.numeric | (row == 6))
}
