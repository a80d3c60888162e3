// An edit: a value into the window, and the bytes that it replaces into the journal. Nothing is written before it is known that both can be.
#![tactic(auto)]

ghost use Rattle.std.specs.Prelude.{◌≡◌};
ghost use Rattle.maps.specs.Matches.{wanted_of};
ghost use Rattle.access_kinds.specs.Told.{setting_is, Good};
ghost use Rattle.undo_model.specs.Sessions.{answered};
ghost use Rattle.undo_edit.specs.Told.{outcome_of, state_of, window_left, journal_left, edited_in};

use access_causes::write_cause;
use access_kinds::{Setting, is_inside};
use access_writing::put;
use maps::Wanted;
use refusals::Refusal;
use undo_entries::{HEAD, keep, place_for};

// Edits variable `n`, whose setting is known: how many edits stand, or the refusal.
pub fn edit_setting(
    content: &[u8],
    setting: Setting,
    n: u64,
    space: u64,
    first: u64,
    window: &mut [u8],
    journal: &mut [u8],
    session: u64,
    value: Wanted,
    string: &[u8],
) -> Result<u64, Refusal>
    requires { Good content.now setting }
    ensures answer { outcome_of result ≡ answered (edited_in (setting_is content.now setting) n (wanted_of value string.now) (state_of session space first window.old journal.old)) }
    ensures bytes { window.new ≡ window_left (state_of session space first window.old journal.old) (edited_in (setting_is content.now setting) n (wanted_of value string.now) (state_of session space first window.old journal.old)) }
    ensures kept { journal.new ≡ journal_left (state_of session space first window.old journal.old) (edited_in (setting_is content.now setting) n (wanted_of value string.now) (state_of session space first window.old journal.old)) }
{
    let inside = is_inside(setting, space, first, window.len());
    match write_cause(content, setting, inside, value, string) {
        Some(number) => Err(Refusal { number, place: 0 }),
        None => match place_for(journal, session, setting.size) {
            None => Err(Refusal {
                number: 30,
                place: 0,
            }),
            Some(at) => {
                let from = (setting.address - first) as usize;
                let to = from + setting.size;
                let end = at + HEAD + setting.size;
                keep(&mut journal[at..end], n, &window[from..to]);
                put(&mut window[from..to], value, string);
                Ok(session + 1)
            }
        },
    }
}
