// Stages 1 to 3: where the content ends, its characters, its first line.
#![tactic(auto)]

ghost use Rattle.std.specs.Prelude.{◌≡◌, ◌≤◌, length};
ghost use Rattle.cdi.specs.Faults.{◌and_then◌};
ghost use Rattle.cdi.specs.Planning.{ending, characters, opening};
ghost use Rattle.text_runs.specs.Runs.{plain, AllOf};
ghost use Rattle.plan_opening.specs.Openings.{opened_of, Whole, Ended};

use refusals::Refusal;
use text::{bad_behind, examine, is_opening};

// Stages 2 and 3, of content whose bytes before this place are characters by themselves.
fn judged(content: &[u8], run: usize) -> Result<usize, Refusal>
    requires { (run ≤ length content.now) × AllOf plain content.now 0 run }
    ensures said { opened_of content.now result ≡ (characters content.now and_then opening) }
    ensures whole { Whole content.now result }
{
    if let Some(place) = bad_behind(content, run) {
        return Err(Refusal { number: 2, place });
    }
    if is_opening(content) {
        Ok(content.len())
    } else {
        Err(Refusal {
            number: 3,
            place: 0,
        })
    }
}

// Stages 1 to 3 of any text: the end of the content, or the refusal. The zero is looked for once.
pub fn open_text(text: &[u8]) -> Result<usize, Refusal>
    ensures said { opened_of text.now result ≡ (ending text.now and_then characters and_then opening) }
    ensures ends { Ended text.now result }
{
    let told = examine(text);
    match told.end {
        Ok(end) => judged(&text[0..end], told.run),
        Err(place) => Err(Refusal { number: 1, place }),
    }
}
