// What the library hands out: the number of a refusal or 0 as the result, the place of a refusal and the values of an accepted call through single
// numbers. An accepted call writes every value and leaves the place as it was; a refused one writes the place and leaves the values.
// A number, and no `Result`: the C interface needs it.
#![tactic(auto)]

ghost use Rattle.std.specs.Prelude.{◌≡◌};
ghost use Rattle.cdi.specs.Walk.{Found};
ghost use Rattle.cdi.specs.Planning.{Counts};
ghost use Rattle.plan_stages.specs.Outlines.{answer_of};
ghost use Rattle.locate.specs.Answers.{told_of};
ghost use Rattle.listing.specs.Told.{listing_of};
ghost use Rattle.access_checked.specs.Told.{checked_of};
ghost use Rattle.access_writing.specs.Told.{written_of};
ghost use Rattle.outcomes.specs.Outcomes.{number_in, place_after, value_after};
ghost use Rattle.planksling_out.specs.Readings.{Shown, bit_of, shown_of};

use access_reading::Reading;
use locate::{Absent, Variable};
use plan_stages::Planned;
use refusals::Refusal;
use terms::{EVENTID, INT, STRING};

// Of planning: the records and the variables.
pub fn tell_planned(
    told: Result<Planned, Refusal>,
    records: &mut usize,
    variables: &mut u64,
    place: &mut usize,
) -> usize
    ensures value { result ≡ number_in (answer_of told) }
    ensures records_after { records.new ≡ value_after (λ (a : Counts). a.records) (answer_of told) records.old }
    ensures variables_after { variables.new ≡ value_after (λ (a : Counts). a.variables) (answer_of told) variables.old }
    ensures place_after { place.new ≡ place_after (answer_of told) place.old }
{
    match told {
        Ok(found) => {
            *records = found.records;
            *variables = found.variables;
            0
        }
        Err(unplanned) => {
            *place = unplanned.place;
            unplanned.number
        }
    }
}

// Of checking a text and a table: the end of the content.
pub fn tell_checked(told: Result<usize, Refusal>, end: &mut usize, place: &mut usize) -> usize
    ensures value { result ≡ number_in (checked_of told) }
    ensures end_after { end.new ≡ value_after (λ e. e) (checked_of told) end.old }
    ensures place_after { place.new ≡ place_after (checked_of told) place.old }
{
    match told {
        Ok(at) => {
            *end = at;
            0
        }
        Err(fault) => {
            *place = fault.place;
            fault.number
        }
    }
}

// Of locating: a variable's record, space, address, size and kind. Its refusals have no place.
pub fn tell_located(
    told: Result<Variable, Absent>,
    record_number: &mut usize,
    space: &mut u64,
    address: &mut u64,
    size: &mut u64,
    kind: &mut u64,
) -> usize
    ensures value { result ≡ number_in (told_of told) }
    ensures record_number_after { record_number.new ≡ value_after (λ (a : Found). a.number) (told_of told) record_number.old }
    ensures space_after { space.new ≡ value_after (λ (a : Found). a.space) (told_of told) space.old }
    ensures address_after { address.new ≡ value_after (λ (a : Found). a.address) (told_of told) address.old }
    ensures size_after { size.new ≡ value_after (λ (a : Found). a.size) (told_of told) size.old }
    ensures kind_after { kind.new ≡ value_after (λ (a : Found). a.kind) (told_of told) kind.old }
{
    match told {
        Ok(it) => {
            *record_number = it.record;
            *space = it.space;
            *address = it.address;
            *size = it.size;
            *kind = it.kind;
            0
        }
        Err(Absent::NotAPlan) => 20,
        Err(Absent::NoVariable) => 21,
    }
}

// Of listing: how many variables were listed. Its refusal has no place.
pub fn tell_listed(told: Option<usize>, count: &mut usize) -> usize
    ensures value { result ≡ number_in (listing_of told) }
    ensures count_after { count.new ≡ value_after (λ n. n) (listing_of told) count.old }
{
    match told {
        Some(many) => {
            *count = many;
            0
        }
        None => 20,
    }
}

// Of writing, which has no value.
pub fn tell_written(told: Result<(), Refusal>, place: &mut usize) -> usize
    ensures value { result ≡ number_in (written_of told) }
    ensures place_after { place.new ≡ place_after (written_of told) place.old }
{
    match told {
        Ok(()) => 0,
        Err(refusal) => {
            *place = refusal.place;
            refusal.number
        }
    }
}

// 1 for true, 0 for false.
fn bit(flag: bool) -> u64
    ensures { result ≡ bit_of flag }
{
    if flag {
        return 1;
    }
    0
}

// Of reading: the value's kind; of an integer its sign and magnitude, of an event ID its number, of a text from where to before where in the window it
// stands, and 0 for what the value doesn't have; whether writing the value now would be accepted.
#[tactic(auto, unfolding(outcomes::specs::Outcomes::number_in, outcomes::specs::Outcomes::place_after, outcomes::specs::Outcomes::value_after, crate::specs::Readings::shown_of))]
pub fn tell_read(
    told: Result<Reading, Refusal>,
    kind: &mut u64,
    negative: &mut u64,
    number: &mut u64,
    from: &mut usize,
    to: &mut usize,
    writable: &mut u64,
    place: &mut usize,
) -> usize
    ensures value { result ≡ number_in (shown_of told) }
    ensures kind_after { kind.new ≡ value_after (λ (a : Shown). a.kind) (shown_of told) kind.old }
    ensures negative_after { negative.new ≡ value_after (λ (a : Shown). a.negative) (shown_of told) negative.old }
    ensures number_after { number.new ≡ value_after (λ (a : Shown). a.number) (shown_of told) number.old }
    ensures from_after { from.new ≡ value_after (λ (a : Shown). a.from) (shown_of told) from.old }
    ensures to_after { to.new ≡ value_after (λ (a : Shown). a.to) (shown_of told) to.old }
    ensures writable_after { writable.new ≡ value_after (λ (a : Shown). a.writable) (shown_of told) writable.old }
    ensures place_after { place.new ≡ place_after (shown_of told) place.old }
{
    match told {
        Ok(
            Reading::Integer {
                negative: below,
                magnitude,
                writable: again,
            },
        ) => {
            *kind = INT;
            *negative = bit(below);
            *number = magnitude;
            *from = 0;
            *to = 0;
            *writable = bit(again);
            0
        }
        Ok(
            Reading::Event {
                id,
                writable: again,
            },
        ) => {
            *kind = EVENTID;
            *negative = 0;
            *number = id;
            *from = 0;
            *to = 0;
            *writable = bit(again);
            0
        }
        Ok(
            Reading::Text {
                from: i,
                to: j,
                writable: again,
            },
        ) => {
            *kind = STRING;
            *negative = 0;
            *number = 0;
            *from = i;
            *to = j;
            *writable = bit(again);
            0
        }
        Err(refusal) => {
            *place = refusal.place;
            refusal.number
        }
    }
}
