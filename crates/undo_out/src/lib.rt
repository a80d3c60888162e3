// What edits and undos hand out: the number of a refusal or 0 as the result, its place, and how many edits stand, through the session value that is lent.
// A number, and no `Result`: the C interface needs it.
#![tactic(auto)]

ghost use Rattle.std.specs.Prelude.{◌≡◌};
ghost use Rattle.outcomes.specs.Outcomes.{number_in, place_after, value_after};
ghost use Rattle.undo_edit.specs.Told.{outcome_of};

use refusals::Refusal;

// A refused call leaves the session value as it was, an accepted one the place.
pub fn tell_stands(told: Result<u64, Refusal>, session: &mut u64, place: &mut usize) -> usize
    ensures value { result ≡ number_in (outcome_of told) }
    ensures session_after { session.new ≡ value_after (λ s. s) (outcome_of told) session.old }
    ensures place_after { place.new ≡ place_after (outcome_of told) place.old }
{
    match told {
        Ok(edits) => {
            *session = edits;
            0
        }
        Err(refusal) => {
            *place = refusal.place;
            refusal.number
        }
    }
}
