// Edits that can be taken back.

ghost use Rattle.std.specs.Prelude.{◌≡◌, ltb};
ghost use Rattle.cdi.specs.Faults.{accepted};
ghost use Rattle.maps.specs.Matches.{wanted_of};
ghost use Rattle.maps.specs.declared.Wanted.TheVariants.{Number, Event, Text};
ghost use Rattle.access_lookup.specs.Told.{known_of};
ghost use Rattle.access_kinds.specs.Told.{no_text};
ghost use Rattle.undo_model.specs.Sessions.{edited, undone, answered};
ghost use Rattle.undo_edit.specs.Told.{state_of, window_left, journal_left};
ghost use Rattle.undo.specs.Told.{edit_of};
ghost use Rattle.outcomes.specs.Outcomes.{number_in, place_after, value_after};

// ── of any text and any table ──

// Edits with an integer: a sign, where any number but 0 says that it is negative, and a magnitude.
#[unsafe(no_mangle)]
pub extern "C" fn planksling_edit_integer(
    text: &[u8],
    table: &[i64],
    n: u64,
    space: u64,
    first: u64,
    window: &mut [u8],
    journal: &mut [u8],
    session: &mut u64,
    negative: u64,
    magnitude: u64,
    place: &mut usize,
) -> usize
    ensures value { result ≡ number_in (answered (edited text.now table.now (edit_of n (wanted_of (Number (ltb 0 negative) magnitude) no_text)) (state_of session.old space first window.old journal.old))) }
    ensures session_after { session.new ≡ value_after (λ s. s) (answered (edited text.now table.now (edit_of n (wanted_of (Number (ltb 0 negative) magnitude) no_text)) (state_of session.old space first window.old journal.old))) session.old }
    ensures place_after { place.new ≡ place_after (answered (edited text.now table.now (edit_of n (wanted_of (Number (ltb 0 negative) magnitude) no_text)) (state_of session.old space first window.old journal.old))) place.old }
    ensures window_after { window.new ≡ window_left (state_of session.old space first window.old journal.old) (edited text.now table.now (edit_of n (wanted_of (Number (ltb 0 negative) magnitude) no_text)) (state_of session.old space first window.old journal.old)) }
    ensures journal_after { journal.new ≡ journal_left (state_of session.old space first window.old journal.old) (edited text.now table.now (edit_of n (wanted_of (Number (ltb 0 negative) magnitude) no_text)) (state_of session.old space first window.old journal.old)) }
{
    planksling::sessions::planksling_edit_integer(
        text, table, n, space, first, window, journal, session, negative, magnitude, place,
    )
}

// Edits with an event ID.
#[unsafe(no_mangle)]
pub extern "C" fn planksling_edit_event(
    text: &[u8],
    table: &[i64],
    n: u64,
    space: u64,
    first: u64,
    window: &mut [u8],
    journal: &mut [u8],
    session: &mut u64,
    id: u64,
    place: &mut usize,
) -> usize
    ensures value { result ≡ number_in (answered (edited text.now table.now (edit_of n (wanted_of (Event id) no_text)) (state_of session.old space first window.old journal.old))) }
    ensures session_after { session.new ≡ value_after (λ s. s) (answered (edited text.now table.now (edit_of n (wanted_of (Event id) no_text)) (state_of session.old space first window.old journal.old))) session.old }
    ensures place_after { place.new ≡ place_after (answered (edited text.now table.now (edit_of n (wanted_of (Event id) no_text)) (state_of session.old space first window.old journal.old))) place.old }
    ensures window_after { window.new ≡ window_left (state_of session.old space first window.old journal.old) (edited text.now table.now (edit_of n (wanted_of (Event id) no_text)) (state_of session.old space first window.old journal.old)) }
    ensures journal_after { journal.new ≡ journal_left (state_of session.old space first window.old journal.old) (edited text.now table.now (edit_of n (wanted_of (Event id) no_text)) (state_of session.old space first window.old journal.old)) }
{
    planksling::sessions::planksling_edit_event(
        text, table, n, space, first, window, journal, session, id, place,
    )
}

// Edits with a text.
#[unsafe(no_mangle)]
pub extern "C" fn planksling_edit_text(
    text: &[u8],
    table: &[i64],
    n: u64,
    space: u64,
    first: u64,
    window: &mut [u8],
    journal: &mut [u8],
    session: &mut u64,
    string: &[u8],
    place: &mut usize,
) -> usize
    ensures value { result ≡ number_in (answered (edited text.now table.now (edit_of n (wanted_of Text string.now)) (state_of session.old space first window.old journal.old))) }
    ensures session_after { session.new ≡ value_after (λ s. s) (answered (edited text.now table.now (edit_of n (wanted_of Text string.now)) (state_of session.old space first window.old journal.old))) session.old }
    ensures place_after { place.new ≡ place_after (answered (edited text.now table.now (edit_of n (wanted_of Text string.now)) (state_of session.old space first window.old journal.old))) place.old }
    ensures window_after { window.new ≡ window_left (state_of session.old space first window.old journal.old) (edited text.now table.now (edit_of n (wanted_of Text string.now)) (state_of session.old space first window.old journal.old)) }
    ensures journal_after { journal.new ≡ journal_left (state_of session.old space first window.old journal.old) (edited text.now table.now (edit_of n (wanted_of Text string.now)) (state_of session.old space first window.old journal.old)) }
{
    planksling::sessions::planksling_edit_text(
        text, table, n, space, first, window, journal, session, string, place,
    )
}

// Takes the latest edit back.
#[unsafe(no_mangle)]
pub extern "C" fn planksling_undo(
    text: &[u8],
    table: &[i64],
    space: u64,
    first: u64,
    window: &mut [u8],
    journal: &[u8],
    session: &mut u64,
    place: &mut usize,
) -> usize
    ensures value { result ≡ number_in (answered (undone text.now table.now (state_of session.old space first window.old journal.now))) }
    ensures session_after { session.new ≡ value_after (λ s. s) (answered (undone text.now table.now (state_of session.old space first window.old journal.now))) session.old }
    ensures place_after { place.new ≡ place_after (answered (undone text.now table.now (state_of session.old space first window.old journal.now))) place.old }
    ensures window_after { window.new ≡ window_left (state_of session.old space first window.old journal.now) (undone text.now table.now (state_of session.old space first window.old journal.now)) }
{
    planksling::sessions::planksling_undo(
        text, table, space, first, window, journal, session, place,
    )
}

// ── of a text and a table that have been checked; the place of every refusal is 0 ──

// Edits with an integer.
#[unsafe(no_mangle)]
pub extern "C" fn planksling_edit_integer_checked(
    text: &[u8],
    end: usize,
    table: &[i64],
    n: u64,
    space: u64,
    first: u64,
    window: &mut [u8],
    journal: &mut [u8],
    session: &mut u64,
    negative: u64,
    magnitude: u64,
) -> usize
    requires { known_of text.now table.now ≡ accepted end }
    ensures value { result ≡ number_in (answered (edited text.now table.now (edit_of n (wanted_of (Number (ltb 0 negative) magnitude) no_text)) (state_of session.old space first window.old journal.old))) }
    ensures session_after { session.new ≡ value_after (λ s. s) (answered (edited text.now table.now (edit_of n (wanted_of (Number (ltb 0 negative) magnitude) no_text)) (state_of session.old space first window.old journal.old))) session.old }
    ensures window_after { window.new ≡ window_left (state_of session.old space first window.old journal.old) (edited text.now table.now (edit_of n (wanted_of (Number (ltb 0 negative) magnitude) no_text)) (state_of session.old space first window.old journal.old)) }
    ensures journal_after { journal.new ≡ journal_left (state_of session.old space first window.old journal.old) (edited text.now table.now (edit_of n (wanted_of (Number (ltb 0 negative) magnitude) no_text)) (state_of session.old space first window.old journal.old)) }
{
    planksling::sessions::planksling_edit_integer_checked(
        text, end, table, n, space, first, window, journal, session, negative, magnitude,
    )
}

// Edits with an event ID.
#[unsafe(no_mangle)]
pub extern "C" fn planksling_edit_event_checked(
    text: &[u8],
    end: usize,
    table: &[i64],
    n: u64,
    space: u64,
    first: u64,
    window: &mut [u8],
    journal: &mut [u8],
    session: &mut u64,
    id: u64,
) -> usize
    requires { known_of text.now table.now ≡ accepted end }
    ensures value { result ≡ number_in (answered (edited text.now table.now (edit_of n (wanted_of (Event id) no_text)) (state_of session.old space first window.old journal.old))) }
    ensures session_after { session.new ≡ value_after (λ s. s) (answered (edited text.now table.now (edit_of n (wanted_of (Event id) no_text)) (state_of session.old space first window.old journal.old))) session.old }
    ensures window_after { window.new ≡ window_left (state_of session.old space first window.old journal.old) (edited text.now table.now (edit_of n (wanted_of (Event id) no_text)) (state_of session.old space first window.old journal.old)) }
    ensures journal_after { journal.new ≡ journal_left (state_of session.old space first window.old journal.old) (edited text.now table.now (edit_of n (wanted_of (Event id) no_text)) (state_of session.old space first window.old journal.old)) }
{
    planksling::sessions::planksling_edit_event_checked(
        text, end, table, n, space, first, window, journal, session, id,
    )
}

// Edits with a text.
#[unsafe(no_mangle)]
pub extern "C" fn planksling_edit_text_checked(
    text: &[u8],
    end: usize,
    table: &[i64],
    n: u64,
    space: u64,
    first: u64,
    window: &mut [u8],
    journal: &mut [u8],
    session: &mut u64,
    string: &[u8],
) -> usize
    requires { known_of text.now table.now ≡ accepted end }
    ensures value { result ≡ number_in (answered (edited text.now table.now (edit_of n (wanted_of Text string.now)) (state_of session.old space first window.old journal.old))) }
    ensures session_after { session.new ≡ value_after (λ s. s) (answered (edited text.now table.now (edit_of n (wanted_of Text string.now)) (state_of session.old space first window.old journal.old))) session.old }
    ensures window_after { window.new ≡ window_left (state_of session.old space first window.old journal.old) (edited text.now table.now (edit_of n (wanted_of Text string.now)) (state_of session.old space first window.old journal.old)) }
    ensures journal_after { journal.new ≡ journal_left (state_of session.old space first window.old journal.old) (edited text.now table.now (edit_of n (wanted_of Text string.now)) (state_of session.old space first window.old journal.old)) }
{
    planksling::sessions::planksling_edit_text_checked(
        text, end, table, n, space, first, window, journal, session, string,
    )
}

// Takes the latest edit back.
#[unsafe(no_mangle)]
pub extern "C" fn planksling_undo_checked(
    text: &[u8],
    end: usize,
    table: &[i64],
    space: u64,
    first: u64,
    window: &mut [u8],
    journal: &[u8],
    session: &mut u64,
) -> usize
    requires { known_of text.now table.now ≡ accepted end }
    ensures value { result ≡ number_in (answered (undone text.now table.now (state_of session.old space first window.old journal.now))) }
    ensures session_after { session.new ≡ value_after (λ s. s) (answered (undone text.now table.now (state_of session.old space first window.old journal.now))) session.old }
    ensures window_after { window.new ≡ window_left (state_of session.old space first window.old journal.now) (undone text.now table.now (state_of session.old space first window.old journal.now)) }
{
    planksling::sessions::planksling_undo_checked(
        text, end, table, space, first, window, journal, session,
    )
}
