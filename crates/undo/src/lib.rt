// Edits that can be taken back: a text, the exact records planned from it, a window, a journal and the session value in; the next session value or a
// refusal out. A refusal leaves session, window and journal as they were.
#![tactic(auto)]

ghost use Rattle.std.specs.Prelude.{◌≡◌};
ghost use Rattle.cdi.specs.Faults.{accepted};
ghost use Rattle.maps.specs.Matches.{wanted_of};
ghost use Rattle.maps.specs.declared.Wanted.TheVariants.{Number, Event, Text};
ghost use Rattle.access_lookup.specs.Told.{known_of};
ghost use Rattle.access_kinds.specs.Told.{no_text};
ghost use Rattle.undo_model.specs.Sessions.{edited, undone, answered};
ghost use Rattle.undo_edit.specs.Told.{outcome_of, state_of, window_left, journal_left};
ghost use Rattle.undo.specs.Told.{edit_of};

use access_checked::check;
use access_lookup::seek;
use maps::Wanted;
use refusals::Refusal;
use undo_edit::edit_setting;
use undo_take::undo_known;

// ── of a text and a table that have been checked ──

// Edits variable `n`: the text that goes with `Wanted::Text` stands beside it.
pub fn edit_known(
    text: &[u8],
    end: usize,
    table: &[i64],
    n: u64,
    space: u64,
    first: u64,
    window: &mut [u8],
    journal: &mut [u8],
    session: u64,
    value: Wanted,
    string: &[u8],
) -> Result<u64, Refusal>
    requires { known_of text.now table.now ≡ accepted end }
    ensures answer { outcome_of result ≡ answered (edited text.now table.now (edit_of n (wanted_of value string.now)) (state_of session space first window.old journal.old)) }
    ensures bytes { window.new ≡ window_left (state_of session space first window.old journal.old) (edited text.now table.now (edit_of n (wanted_of value string.now)) (state_of session space first window.old journal.old)) }
    ensures kept { journal.new ≡ journal_left (state_of session space first window.old journal.old) (edited text.now table.now (edit_of n (wanted_of value string.now)) (state_of session space first window.old journal.old)) }
{
    match seek(text, end, table, n) {
        Err(refusal) => Err(refusal),
        Ok(setting) => edit_setting(
            &text[0..end],
            setting,
            n,
            space,
            first,
            window,
            journal,
            session,
            value,
            string,
        ),
    }
}

// ── of any text and any table ──

// Edits variable `n`, once text and table are found good.
fn edit(
    text: &[u8],
    table: &[i64],
    n: u64,
    space: u64,
    first: u64,
    window: &mut [u8],
    journal: &mut [u8],
    session: u64,
    value: Wanted,
    string: &[u8],
) -> Result<u64, Refusal>
    ensures answer { outcome_of result ≡ answered (edited text.now table.now (edit_of n (wanted_of value string.now)) (state_of session space first window.old journal.old)) }
    ensures bytes { window.new ≡ window_left (state_of session space first window.old journal.old) (edited text.now table.now (edit_of n (wanted_of value string.now)) (state_of session space first window.old journal.old)) }
    ensures kept { journal.new ≡ journal_left (state_of session space first window.old journal.old) (edited text.now table.now (edit_of n (wanted_of value string.now)) (state_of session space first window.old journal.old)) }
{
    let end = check(text, table)?;
    edit_known(
        text, end, table, n, space, first, window, journal, session, value, string,
    )
}

// Edits with an integer, a sign and a magnitude. The window has these bytes of a space, from `first` on.
pub fn edit_integer(
    text: &[u8],
    table: &[i64],
    n: u64,
    space: u64,
    first: u64,
    window: &mut [u8],
    journal: &mut [u8],
    session: u64,
    negative: bool,
    magnitude: u64,
) -> Result<u64, Refusal>
    ensures answer { outcome_of result ≡ answered (edited text.now table.now (edit_of n (wanted_of (Number negative magnitude) no_text)) (state_of session space first window.old journal.old)) }
    ensures bytes { window.new ≡ window_left (state_of session space first window.old journal.old) (edited text.now table.now (edit_of n (wanted_of (Number negative magnitude) no_text)) (state_of session space first window.old journal.old)) }
    ensures kept { journal.new ≡ journal_left (state_of session space first window.old journal.old) (edited text.now table.now (edit_of n (wanted_of (Number negative magnitude) no_text)) (state_of session space first window.old journal.old)) }
{
    let value = Wanted::Number {
        negative,
        magnitude,
    };
    edit(
        text, table, n, space, first, window, journal, session, value, b"",
    )
}

// Edits with an event ID.
pub fn edit_event(
    text: &[u8],
    table: &[i64],
    n: u64,
    space: u64,
    first: u64,
    window: &mut [u8],
    journal: &mut [u8],
    session: u64,
    id: u64,
) -> Result<u64, Refusal>
    ensures answer { outcome_of result ≡ answered (edited text.now table.now (edit_of n (wanted_of (Event id) no_text)) (state_of session space first window.old journal.old)) }
    ensures bytes { window.new ≡ window_left (state_of session space first window.old journal.old) (edited text.now table.now (edit_of n (wanted_of (Event id) no_text)) (state_of session space first window.old journal.old)) }
    ensures kept { journal.new ≡ journal_left (state_of session space first window.old journal.old) (edited text.now table.now (edit_of n (wanted_of (Event id) no_text)) (state_of session space first window.old journal.old)) }
{
    edit(
        text,
        table,
        n,
        space,
        first,
        window,
        journal,
        session,
        Wanted::Event(id),
        b"",
    )
}

// Edits with a text.
pub fn edit_text(
    text: &[u8],
    table: &[i64],
    n: u64,
    space: u64,
    first: u64,
    window: &mut [u8],
    journal: &mut [u8],
    session: u64,
    string: &[u8],
) -> Result<u64, Refusal>
    ensures answer { outcome_of result ≡ answered (edited text.now table.now (edit_of n (wanted_of Text string.now)) (state_of session space first window.old journal.old)) }
    ensures bytes { window.new ≡ window_left (state_of session space first window.old journal.old) (edited text.now table.now (edit_of n (wanted_of Text string.now)) (state_of session space first window.old journal.old)) }
    ensures kept { journal.new ≡ journal_left (state_of session space first window.old journal.old) (edited text.now table.now (edit_of n (wanted_of Text string.now)) (state_of session space first window.old journal.old)) }
{
    edit(
        text,
        table,
        n,
        space,
        first,
        window,
        journal,
        session,
        Wanted::Text,
        string,
    )
}

// Takes the latest edit back.
pub fn undo(
    text: &[u8],
    table: &[i64],
    space: u64,
    first: u64,
    window: &mut [u8],
    journal: &[u8],
    session: u64,
) -> Result<u64, Refusal>
    ensures answer { outcome_of result ≡ answered (undone text.now table.now (state_of session space first window.old journal.now)) }
    ensures bytes { window.new ≡ window_left (state_of session space first window.old journal.now) (undone text.now table.now (state_of session space first window.old journal.now)) }
{
    let end = check(text, table)?;
    undo_known(text, end, table, space, first, window, journal, session)
}
