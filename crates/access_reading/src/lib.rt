// One setting's value out of a window.
#![tactic(auto)]

ghost use Rattle.std.specs.Prelude.{◌≡◌, ◌+◌, ◌-◌, ◌≤◌, length, take, drop};
ghost use Rattle.cdi.specs.Access.{read_from};
ghost use Rattle.access_kinds.specs.Told.{setting_is, Good, window_of};
ghost use Rattle.access_reading.specs.Told.{reading_of, ReadAt, ReadsAs};

use access_causes::write_cause;
use access_kinds::{Setting, is_inside, read_cause};
use maps::Wanted;
use refusals::Refusal;
use settings_bounds::is_signed;
use terms::{INT, STRING, Whole};
use text::is_utf8;
use values::{first_zero, number_in, whole_in};

// The value and whether writing it now would be accepted; of a text, from where to before where in the window it stands.
#[derive(Clone, Copy)]
pub enum Reading {
    Integer {
        negative: bool,
        magnitude: u64,
        writable: bool,
    },
    Event {
        id: u64,
        writable: bool,
    },
    Text {
        from: usize,
        to: usize,
        writable: bool,
    },
}

// The integer that the window holds from one place to before another.
fn integer_in(
    content: &[u8],
    setting: Setting,
    inside: bool,
    window: &[u8],
    from: usize,
    to: usize,
) -> Reading
    requires { Good content.now setting × (setting.kind ≡ 3) × (from + setting.size ≡ to) × (to ≤ length window.now) }
    ensures is { ReadsAs (setting_is content.now setting) inside window.now (take (to - from) (drop from window.now)) (Ok result) }
    ensures at { ReadAt from window.now (Ok result) }
{
    let signed = is_signed(content, setting.part);
    let Whole {
        negative,
        magnitude,
    } = whole_in(&window[from..to], signed);
    let value = Wanted::Number {
        negative,
        magnitude,
    };
    let cause = write_cause(content, setting, inside, value, b"");
    Reading::Integer {
        negative,
        magnitude,
        writable: cause.is_none(),
    }
}

// The event ID that it holds there.
fn event_in(
    content: &[u8],
    setting: Setting,
    inside: bool,
    window: &[u8],
    from: usize,
    to: usize,
) -> Reading
    requires { Good content.now setting × (setting.kind ≡ 5) × (from + setting.size ≡ to) × (to ≤ length window.now) }
    ensures is { ReadsAs (setting_is content.now setting) inside window.now (take (to - from) (drop from window.now)) (Ok result) }
    ensures at { ReadAt from window.now (Ok result) }
{
    let id = number_in(&window[from..to]);
    let cause = write_cause(content, setting, inside, Wanted::Event(id), b"");
    Reading::Event {
        id,
        writable: cause.is_none(),
    }
}

// The text that it holds there, before the first zero.
fn text_in(
    content: &[u8],
    setting: Setting,
    inside: bool,
    window: &[u8],
    from: usize,
    to: usize,
) -> Result<Reading, Refusal>
    requires { Good content.now setting × (setting.kind ≡ 4) × (from + setting.size ≡ to) × (to ≤ length window.now) }
    ensures is { ReadsAs (setting_is content.now setting) inside window.now (take (to - from) (drop from window.now)) result }
    ensures at { ReadAt from window.now result }
{
    let Some(length) = first_zero(&window[from..to]) else {
        return Err(Refusal {
            number: 28,
            place: 0,
        });
    };
    let behind = from + length;
    let text = &window[from..behind];
    if !is_utf8(text) {
        return Err(Refusal {
            number: 28,
            place: 0,
        });
    }
    let cause = write_cause(content, setting, inside, Wanted::Text, text);
    Ok(Reading::Text {
        from,
        to: behind,
        writable: cause.is_none(),
    })
}

// The value that it holds there, of a variable that is no float.
fn value_in(
    content: &[u8],
    setting: Setting,
    inside: bool,
    window: &[u8],
    from: usize,
    to: usize,
) -> Result<Reading, Refusal>
    requires { Good content.now setting × (setting.kind ≡ 6 → ⊥) × (from + setting.size ≡ to) × (to ≤ length window.now) }
    ensures is { ReadsAs (setting_is content.now setting) inside window.now (take (to - from) (drop from window.now)) result }
    ensures at { ReadAt from window.now result }
{
    match setting.kind {
        INT => Ok(integer_in(content, setting, inside, window, from, to)),
        STRING => text_in(content, setting, inside, window, from, to),
        _ => Ok(event_in(content, setting, inside, window, from, to)),
    }
}

// Takes the value out of the window, if nothing speaks against it.
pub fn fetch(
    content: &[u8],
    setting: Setting,
    space: u64,
    first: u64,
    window: &[u8],
) -> Result<Reading, Refusal>
    requires { Good content.now setting }
    ensures is { reading_of window.now result ≡ read_from (window_of space first window.now) (setting_is content.now setting) }
    ensures at { ReadAt (setting.address - first) window.now result }
{
    let inside = is_inside(setting, space, first, window.len());
    match read_cause(setting, inside) {
        Some(number) => Err(Refusal { number, place: 0 }),
        None => {
            let from = (setting.address - first) as usize;
            let to = from + setting.size;
            value_in(content, setting, inside, window, from, to)
        }
    }
}
