// What storing and reading backups hand out: the number of a refusal or 0 as the result, the place of a refusal and the values of an accepted call
// through single numbers. An accepted call writes every value and leaves the place as it was; a refused one writes the place and leaves the values.
// A number, and no `Result`: the C interface needs it.
#![tactic(auto)]

ghost use Rattle.std.specs.Prelude.{◌≡◌};
ghost use Rattle.blocks.specs.Backups.{Restored};
ghost use Rattle.outcomes.specs.Outcomes.{number_in, place_after, value_after};
ghost use Rattle.backups_judge.specs.Told.{judged_of};
ghost use Rattle.backups_storing.specs.Told.{stored_of};
ghost use Rattle.backups_reading.specs.Told.{read_of};

use backups_reading::Read;
use refusals::Refusal;

// Of storing: the number of bytes stored.
#[tactic(auto, unfolding(outcomes::specs::Outcomes::number_in, outcomes::specs::Outcomes::place_after, outcomes::specs::Outcomes::value_after, backups_storing::specs::Told::stored_of))]
pub fn tell_stored(told: Result<usize, Refusal>, stored: &mut usize, place: &mut usize) -> usize
    ensures value { result ≡ number_in (stored_of told) }
    ensures stored_after { stored.new ≡ value_after (λ n. n) (stored_of told) stored.old }
    ensures place_after { place.new ≡ place_after (stored_of told) place.old }
{
    match told {
        Ok(size) => {
            *stored = size;
            0
        }
        Err(refusal) => {
            *place = refusal.place;
            refusal.number
        }
    }
}

// Of reading: the number of the window's bytes and its space.
#[tactic(auto, unfolding(outcomes::specs::Outcomes::number_in, outcomes::specs::Outcomes::place_after, outcomes::specs::Outcomes::value_after, backups_reading::specs::Told::read_of))]
pub fn tell_read(
    told: Result<Read, Refusal>,
    length: &mut usize,
    space: &mut u64,
    place: &mut usize,
) -> usize
    ensures value { result ≡ number_in (read_of told) }
    ensures length_after { length.new ≡ value_after (λ (a : Restored). a.size) (read_of told) length.old }
    ensures space_after { space.new ≡ value_after (λ (a : Restored). a.space) (read_of told) space.old }
    ensures place_after { place.new ≡ place_after (read_of told) place.old }
{
    match told {
        Ok(read) => {
            *length = read.size;
            *space = read.space;
            0
        }
        Err(refusal) => {
            *place = refusal.place;
            refusal.number
        }
    }
}

// Of judging one block, which has no value; its place is the position that the caller gave.
#[tactic(auto, unfolding(outcomes::specs::Outcomes::number_in, backups_judge::specs::Told::bad_of, backups_judge::specs::Told::judged_of))]
pub fn tell_judged(told: Result<(), Refusal>) -> usize
    ensures { result ≡ number_in (judged_of told) }
{
    match told {
        Ok(()) => 0,
        Err(refusal) => refusal.number,
    }
}
