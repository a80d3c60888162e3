// Values into a window.

ghost use Rattle.std.specs.Prelude.{◌≡◌, ltb};
ghost use Rattle.cdi.specs.Faults.{accepted};
ghost use Rattle.cdi.specs.Access.{written, window_after};
ghost use Rattle.maps.specs.Matches.{wanted_of};
ghost use Rattle.maps.specs.declared.Wanted.TheVariants.{Number, Event, Text};
ghost use Rattle.access_lookup.specs.Told.{known_of};
ghost use Rattle.access_kinds.specs.Told.{window_of, no_text};
ghost use Rattle.outcomes.specs.Outcomes.{number_in, place_after};

// ── of any text and any table ──

// Writes an integer: a sign, where any number but 0 says that it is negative, and a magnitude.
#[unsafe(no_mangle)]
pub extern "C" fn planksling_write_integer(
    text: &[u8],
    table: &[i64],
    n: u64,
    space: u64,
    first: u64,
    window: &mut [u8],
    negative: u64,
    magnitude: u64,
    place: &mut usize,
) -> usize
    ensures value { result ≡ number_in (written text.now table.now n (window_of space first window.old) (wanted_of (Number (ltb 0 negative) magnitude) no_text)) }
    ensures place_after { place.new ≡ place_after (written text.now table.now n (window_of space first window.old) (wanted_of (Number (ltb 0 negative) magnitude) no_text)) place.old }
    ensures window_after { window.new ≡ window_after text.now table.now n (window_of space first window.old) (wanted_of (Number (ltb 0 negative) magnitude) no_text) }
{
    planksling::writing::planksling_write_integer(
        text, table, n, space, first, window, negative, magnitude, place,
    )
}

// Writes an event ID.
#[unsafe(no_mangle)]
pub extern "C" fn planksling_write_event(
    text: &[u8],
    table: &[i64],
    n: u64,
    space: u64,
    first: u64,
    window: &mut [u8],
    id: u64,
    place: &mut usize,
) -> usize
    ensures value { result ≡ number_in (written text.now table.now n (window_of space first window.old) (wanted_of (Event id) no_text)) }
    ensures place_after { place.new ≡ place_after (written text.now table.now n (window_of space first window.old) (wanted_of (Event id) no_text)) place.old }
    ensures window_after { window.new ≡ window_after text.now table.now n (window_of space first window.old) (wanted_of (Event id) no_text) }
{
    planksling::writing::planksling_write_event(text, table, n, space, first, window, id, place)
}

// Writes a text.
#[unsafe(no_mangle)]
pub extern "C" fn planksling_write_text(
    text: &[u8],
    table: &[i64],
    n: u64,
    space: u64,
    first: u64,
    window: &mut [u8],
    string: &[u8],
    place: &mut usize,
) -> usize
    ensures value { result ≡ number_in (written text.now table.now n (window_of space first window.old) (wanted_of Text string.now)) }
    ensures place_after { place.new ≡ place_after (written text.now table.now n (window_of space first window.old) (wanted_of Text string.now)) place.old }
    ensures window_after { window.new ≡ window_after text.now table.now n (window_of space first window.old) (wanted_of Text string.now) }
{
    planksling::writing::planksling_write_text(text, table, n, space, first, window, string, place)
}

// ── of a text and a table that have been checked; the place of every refusal is 0 ──

// Writes an integer.
#[unsafe(no_mangle)]
pub extern "C" fn planksling_write_integer_checked(
    text: &[u8],
    end: usize,
    table: &[i64],
    n: u64,
    space: u64,
    first: u64,
    window: &mut [u8],
    negative: u64,
    magnitude: u64,
) -> usize
    requires { known_of text.now table.now ≡ accepted end }
    ensures value { result ≡ number_in (written text.now table.now n (window_of space first window.old) (wanted_of (Number (ltb 0 negative) magnitude) no_text)) }
    ensures window_after { window.new ≡ window_after text.now table.now n (window_of space first window.old) (wanted_of (Number (ltb 0 negative) magnitude) no_text) }
{
    planksling::writing::planksling_write_integer_checked(
        text, end, table, n, space, first, window, negative, magnitude,
    )
}

// Writes an event ID.
#[unsafe(no_mangle)]
pub extern "C" fn planksling_write_event_checked(
    text: &[u8],
    end: usize,
    table: &[i64],
    n: u64,
    space: u64,
    first: u64,
    window: &mut [u8],
    id: u64,
) -> usize
    requires { known_of text.now table.now ≡ accepted end }
    ensures value { result ≡ number_in (written text.now table.now n (window_of space first window.old) (wanted_of (Event id) no_text)) }
    ensures window_after { window.new ≡ window_after text.now table.now n (window_of space first window.old) (wanted_of (Event id) no_text) }
{
    planksling::writing::planksling_write_event_checked(
        text, end, table, n, space, first, window, id,
    )
}

// Writes a text.
#[unsafe(no_mangle)]
pub extern "C" fn planksling_write_text_checked(
    text: &[u8],
    end: usize,
    table: &[i64],
    n: u64,
    space: u64,
    first: u64,
    window: &mut [u8],
    string: &[u8],
) -> usize
    requires { known_of text.now table.now ≡ accepted end }
    ensures value { result ≡ number_in (written text.now table.now n (window_of space first window.old) (wanted_of Text string.now)) }
    ensures window_after { window.new ≡ window_after text.now table.now n (window_of space first window.old) (wanted_of Text string.now) }
{
    planksling::writing::planksling_write_text_checked(
        text, end, table, n, space, first, window, string,
    )
}
