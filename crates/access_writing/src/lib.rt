// One setting's value into a window.
#![tactic(auto)]

ghost use Rattle.std.specs.Prelude.{◌≡◌, length};
ghost use Rattle.cdi.specs.Access.{first_cause, write_causes, write_into, stored};
ghost use Rattle.maps.specs.Matches.{wanted_of};
ghost use Rattle.access_kinds.specs.Told.{setting_is, Good, window_of};
ghost use Rattle.access_writing.specs.Told.{Room, written_of};

use access_causes::write_cause;
use access_kinds::{Setting, is_inside};
use maps::Wanted;
use refusals::Refusal;
use terms::Whole;
use values::{put_number, put_text, put_whole};

// Fills the part with the value's bytes.
pub fn put(part: &mut [u8], value: Wanted, string: &[u8])
    requires { Room (length part.old) value (length string.now) }
    ensures { part.new ≡ stored (length part.old) (wanted_of value string.now) }
{
    match value {
        Wanted::Number {
            negative,
            magnitude,
        } => {
            let whole = Whole {
                negative,
                magnitude,
            };
            put_whole(part, whole);
        }
        Wanted::Event(id) => {
            put_number(part, id);
        }
        Wanted::Text => {
            put_text(part, string);
        }
    }
}

// Puts the value into the window, if nothing speaks against it. Only the variable's own part of the window is lent on.
pub fn store(
    content: &[u8],
    setting: Setting,
    space: u64,
    first: u64,
    window: &mut [u8],
    value: Wanted,
    string: &[u8],
) -> Result<(), Refusal>
    requires { Good content.now setting }
    ensures answer { written_of result ≡ first_cause (write_causes (window_of space first window.old) (wanted_of value string.now) (setting_is content.now setting)) }
    ensures after { window.new ≡ write_into (window_of space first window.old) (wanted_of value string.now) (setting_is content.now setting) }
{
    let inside = is_inside(setting, space, first, window.len());
    match write_cause(content, setting, inside, value, string) {
        Some(number) => Err(Refusal { number, place: 0 }),
        None => {
            let from = (setting.address - first) as usize;
            let to = from + setting.size;
            put(&mut window[from..to], value, string);
            Ok(())
        }
    }
}
