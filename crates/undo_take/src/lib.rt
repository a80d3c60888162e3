// Taking the latest edit back: its old bytes into the window. The journal is only read.
#![tactic(auto)]

ghost use Rattle.std.specs.Prelude.{◌≡◌, ◌≤◌};
ghost use Rattle.cdi.specs.Faults.{accepted};
ghost use Rattle.access_lookup.specs.Told.{known_of};
ghost use Rattle.access_kinds.specs.Told.{no_text, setting_is};
ghost use Rattle.undo_model.specs.Sessions.{answered, taken_back, undone};
ghost use Rattle.undo_edit.specs.Told.{outcome_of, state_of, window_left};
ghost use Rattle.undo_take.specs.Held.{Held};

use access_kinds::{Setting, is_inside};
use access_lookup::seek;
use refusals::Refusal;
use undo_entries::last_of;
use values::put_text;

// Puts the old bytes of this size, which stand in the journal from one place on, back into the variable that is known.
fn put_back(
    setting: Setting,
    space: u64,
    first: u64,
    window: &mut [u8],
    journal: &[u8],
    session: u64,
    size: usize,
    from: usize,
) -> Result<u64, Refusal>
    requires { (1 ≤ session) × Held journal.now session size from }
    ensures answer { outcome_of result ≡ answered (taken_back (state_of session space first window.old journal.now) (accepted (setting_is no_text setting).variable)) }
    ensures bytes { window.new ≡ window_left (state_of session space first window.old journal.now) (taken_back (state_of session space first window.old journal.now) (accepted (setting_is no_text setting).variable)) }
{
    if setting.size != size {
        return Err(Refusal {
            number: 35,
            place: 0,
        });
    }
    let length = window.len();
    if !is_inside(setting, space, first, length) {
        return Err(Refusal {
            number: 35,
            place: 0,
        });
    }
    let start = (setting.address - first) as usize;
    let end = start + size;
    let to = from + size;
    put_text(&mut window[start..end], &journal[from..to]);
    Ok(session - 1)
}

// Takes the latest edit back, of a text and a table that have been checked.
pub fn undo_known(
    text: &[u8],
    end: usize,
    table: &[i64],
    space: u64,
    first: u64,
    window: &mut [u8],
    journal: &[u8],
    session: u64,
) -> Result<u64, Refusal>
    requires { known_of text.now table.now ≡ accepted end }
    ensures answer { outcome_of result ≡ answered (undone text.now table.now (state_of session space first window.old journal.now)) }
    ensures bytes { window.new ≡ window_left (state_of session space first window.old journal.now) (undone text.now table.now (state_of session space first window.old journal.now)) }
{
    if session == 0 {
        return Err(Refusal {
            number: 31,
            place: 0,
        });
    }
    let Some(last) = last_of(journal, session) else {
        return Err(Refusal {
            number: 35,
            place: 0,
        });
    };
    let Ok(setting) = seek(text, end, table, last.number) else {
        return Err(Refusal {
            number: 35,
            place: 0,
        });
    };
    put_back(
        setting, space, first, window, journal, session, last.size, last.from,
    )
}
