// Which setting variable n of a text and a table that have been checked is.
#![tactic(auto)]

ghost use Rattle.std.specs.Prelude.{◌≡◌, take};
ghost use Rattle.cdi.specs.Faults.{accepted};
ghost use Rattle.cdi.specs.Access.{setting_of};
ghost use Rattle.access_lookup.specs.Told.{known_of, lookup_of, Fits};

use access_kinds::Setting;
use locate::{Absent, find};
use locate_rows::{PLACE, rise_at};
use refusals::Refusal;
use settings::content_at;
use terms::FIRST_LINE;

// Variable `n` of a text and a table that have been checked.
pub fn seek(text: &[u8], end: usize, table: &[i64], n: u64) -> Result<Setting, Refusal>
    requires { known_of text.now table.now ≡ accepted end }
    ensures is { lookup_of (take end text.now) result ≡ setting_of text.now table.now n }
    ensures fits { Fits (take end text.now) result }
{
    match find(table, n) {
        Err(Absent::NotAPlan) => Err(Refusal {
            number: 20,
            place: 0,
        }),
        Err(Absent::NoVariable) => Err(Refusal {
            number: 21,
            place: 0,
        }),
        Ok(it) => {
            let place = rise_at(table, it.record, PLACE);
            let part = content_at(&text[0..end], FIRST_LINE, place as usize);
            Ok(Setting {
                number: it.record,
                space: it.space,
                address: it.address,
                size: it.size as usize,
                kind: it.kind,
                part,
            })
        }
    }
}
