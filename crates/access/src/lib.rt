// Writing and reading settings: a text, the exact records planned from it, a variable's number and a window in; a refusal or the value out. A write
// changes the bytes of its variable and no other; a refused one changes none.
#![tactic(auto)]

ghost use Rattle.std.specs.Prelude.{◌≡◌};
ghost use Rattle.cdi.specs.Faults.{accepted};
ghost use Rattle.cdi.specs.Access.{written, window_after, read};
ghost use Rattle.maps.specs.Matches.{wanted_of};
ghost use Rattle.maps.specs.declared.Wanted.TheVariants.{Number, Event, Text};
ghost use Rattle.access_lookup.specs.Told.{known_of};
ghost use Rattle.access_kinds.specs.Told.{window_of, no_text};
ghost use Rattle.access_writing.specs.Told.{written_of};
ghost use Rattle.access_reading.specs.Told.{reading_of, ReadAt};
ghost use Rattle.access.specs.Told.{start_for};

use access_checked::check;
use access_lookup::seek;
use access_reading::{Reading, fetch};
use access_writing::store;
use maps::Wanted;
use refusals::Refusal;

// ── of a text and a table that have been checked ──

// Writes a value: the text that goes with `Wanted::Text` stands beside it.
pub fn write_known(
    text: &[u8],
    end: usize,
    table: &[i64],
    n: u64,
    space: u64,
    first: u64,
    window: &mut [u8],
    value: Wanted,
    string: &[u8],
) -> Result<(), Refusal>
    requires { known_of text.now table.now ≡ accepted end }
    ensures answer { written_of result ≡ written text.now table.now n (window_of space first window.old) (wanted_of value string.now) }
    ensures after { window.new ≡ window_after text.now table.now n (window_of space first window.old) (wanted_of value string.now) }
{
    match seek(text, end, table, n) {
        Err(refusal) => Err(refusal),
        Ok(setting) => store(&text[0..end], setting, space, first, window, value, string),
    }
}

// Reads a value.
pub fn read_known(
    text: &[u8],
    end: usize,
    table: &[i64],
    n: u64,
    space: u64,
    first: u64,
    window: &[u8],
) -> Result<Reading, Refusal>
    requires { known_of text.now table.now ≡ accepted end }
    ensures is { reading_of window.now result ≡ read text.now table.now n (window_of space first window.now) }
    ensures at { ReadAt (start_for text.now table.now n first) window.now result }
{
    match seek(text, end, table, n) {
        Err(refusal) => Err(refusal),
        Ok(setting) => fetch(&text[0..end], setting, space, first, window),
    }
}

// ── of any text and any table ──

// Writes a value, once text and table are found good.
fn write(
    text: &[u8],
    table: &[i64],
    n: u64,
    space: u64,
    first: u64,
    window: &mut [u8],
    value: Wanted,
    string: &[u8],
) -> Result<(), Refusal>
    ensures answer { written_of result ≡ written text.now table.now n (window_of space first window.old) (wanted_of value string.now) }
    ensures after { window.new ≡ window_after text.now table.now n (window_of space first window.old) (wanted_of value string.now) }
{
    let end = check(text, table)?;
    write_known(text, end, table, n, space, first, window, value, string)
}

// Writes an integer, a sign and a magnitude, into variable `n`. The window has these bytes of a space, from `first` on.
pub fn write_integer(
    text: &[u8],
    table: &[i64],
    n: u64,
    space: u64,
    first: u64,
    window: &mut [u8],
    negative: bool,
    magnitude: u64,
) -> Result<(), Refusal>
    ensures answer { written_of result ≡ written text.now table.now n (window_of space first window.old) (wanted_of (Number negative magnitude) no_text) }
    ensures after { window.new ≡ window_after text.now table.now n (window_of space first window.old) (wanted_of (Number negative magnitude) no_text) }
{
    let value = Wanted::Number {
        negative,
        magnitude,
    };
    write(text, table, n, space, first, window, value, b"")
}

// Writes an event ID.
pub fn write_event(
    text: &[u8],
    table: &[i64],
    n: u64,
    space: u64,
    first: u64,
    window: &mut [u8],
    id: u64,
) -> Result<(), Refusal>
    ensures answer { written_of result ≡ written text.now table.now n (window_of space first window.old) (wanted_of (Event id) no_text) }
    ensures after { window.new ≡ window_after text.now table.now n (window_of space first window.old) (wanted_of (Event id) no_text) }
{
    write(text, table, n, space, first, window, Wanted::Event(id), b"")
}

// Writes a text.
pub fn write_text(
    text: &[u8],
    table: &[i64],
    n: u64,
    space: u64,
    first: u64,
    window: &mut [u8],
    string: &[u8],
) -> Result<(), Refusal>
    ensures answer { written_of result ≡ written text.now table.now n (window_of space first window.old) (wanted_of Text string.now) }
    ensures after { window.new ≡ window_after text.now table.now n (window_of space first window.old) (wanted_of Text string.now) }
{
    write(text, table, n, space, first, window, Wanted::Text, string)
}

// Reads variable `n`: its value, and whether writing that value now would be accepted.
pub fn read(
    text: &[u8],
    table: &[i64],
    n: u64,
    space: u64,
    first: u64,
    window: &[u8],
) -> Result<Reading, Refusal>
    ensures is { reading_of window.now result ≡ read text.now table.now n (window_of space first window.now) }
    ensures at { ReadAt (start_for text.now table.now n first) window.now result }
{
    let end = check(text, table)?;
    read_known(text, end, table, n, space, first, window)
}
