// Planning, and the checks that other calls may rely on.

ghost use Rattle.std.specs.Prelude.{◌≡◌};
ghost use Rattle.cdi.specs.Planning.{Counts, planned, table_after};
ghost use Rattle.access_lookup.specs.Told.{known_of};
ghost use Rattle.outcomes.specs.Outcomes.{number_in, place_after, value_after};
ghost use Rattle.planksling.specs.Answers.{tested};

use access_checked::check;
use locate_plan::is_plan;
use plan::plan;
use planksling_out::{tell_checked, tell_planned};

// Plans a text into the table. Refusals: 1 to 7, 81 to 88, 9 to 13.
pub fn planksling_plan(
    text: &[u8],
    table: &mut [i64],
    records: &mut usize,
    variables: &mut u64,
    place: &mut usize,
) -> usize
    ensures value { result ≡ number_in (planned text.now table.old) }
    ensures records_after { records.new ≡ value_after (λ (a : Counts). a.records) (planned text.now table.old) records.old }
    ensures variables_after { variables.new ≡ value_after (λ (a : Counts). a.variables) (planned text.now table.old) variables.old }
    ensures place_after { place.new ≡ place_after (planned text.now table.old) place.old }
    ensures table_after { table.new ≡ table_after text.now table.old }
{
    tell_planned(plan(text, table), records, variables, place)
}

// Is the table a plan? 0, or 20.
pub fn planksling_check_plan(table: &[i64]) -> usize
    ensures { result ≡ number_in (tested table.now) }
{
    if is_plan(table) {
        return 0;
    }
    20
}

// Is the table exactly the one planned from the text? The end of the text's content; or 1 to 7, 81 to 88, 9 to 12, 20.
pub fn planksling_check(text: &[u8], table: &[i64], end: &mut usize, place: &mut usize) -> usize
    ensures value { result ≡ number_in (known_of text.now table.now) }
    ensures end_after { end.new ≡ value_after (λ a. a) (known_of text.now table.now) end.old }
    ensures place_after { place.new ≡ place_after (known_of text.now table.now) place.old }
{
    tell_checked(check(text, table), end, place)
}
