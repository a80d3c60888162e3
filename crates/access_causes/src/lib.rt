// The causes that the text decides, and why a value can't be written.
#![tactic(auto)]

ghost use Rattle.std.specs.Prelude.{◌≡◌, ◌||◌};
ghost use Rattle.cdi.specs.Access.{is_float, is_mapped_event};
ghost use Rattle.maps.specs.Matches.{wanted_of};
ghost use Rattle.access_kinds.specs.Told.{no_text, setting_is, Good, Bounded, Decides};

use access_kinds::{Setting, is_good_text, kind_of};
use access_order::first_cause;
use maps::Wanted;
use settings_admission::{has_map, is_admitted};
use settings_bounds::is_in_bounds;
use terms::{EVENTID, FLOAT, INT};

// ── the causes ──

// 27: a float, or an eventid with a map.
fn is_withheld(content: &[u8], setting: Setting) -> bool
    requires { Good content.now setting }
    ensures { result ≡ (is_float (setting_is content.now setting) || is_mapped_event (setting_is content.now setting)) }
{
    setting.kind == FLOAT || setting.kind == EVENTID && has_map(content, setting.part)
}

// 23: does a value of the variable's kind keep its bounds?
fn keeps_bounds(content: &[u8], setting: Setting, value: Wanted) -> bool
    requires { Good content.now setting }
    ensures { Bounded (setting_is content.now setting) (wanted_of value no_text) result }
{
    match value {
        Wanted::Number {
            negative,
            magnitude,
        } if setting.kind == INT => is_in_bounds(
            content,
            setting.part,
            setting.size,
            negative,
            magnitude,
        ),
        Wanted::Number { .. } | Wanted::Event(_) | Wanted::Text => true,
    }
}

// ── the decision ──

// The cause why this value can't be written, if there is one.
pub fn write_cause(
    content: &[u8],
    setting: Setting,
    inside: bool,
    value: Wanted,
    string: &[u8],
) -> Option<usize>
    requires { Good content.now setting }
    ensures { Decides (setting_is content.now setting) inside (wanted_of value string.now) result }
{
    let kind = kind_of(value);
    first_cause(
        is_withheld(content, setting),
        kind != setting.kind,
        !keeps_bounds(content, setting, value),
        !is_good_text(setting, value, string),
        !is_admitted(content, setting.part, value, string),
        !inside,
    )
}
