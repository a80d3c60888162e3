// Stages 4 to 12: what content describes, with its rows in a table of any length.
#![tactic(auto)]

ghost use Rattle.std.specs.Prelude.{◌≡◌, ◌%◌, ◌≤◌, length};
ghost use Rattle.cdi.specs.Faults.{◌and_then◌};
ghost use Rattle.plan_stages.specs.Outlines.{of_markup, in_room, said_of, Few};

use parse_elements::read;
use plan_stages::{Planned, settled};
use refusals::Refusal;
use terms::FIRST_LINE;

// What content that begins with the first line describes, with as many of its rows at the front of these as have room. Of refused content the rows
// say nothing.
#[tactic(auto, using(crate::proofs::Reading::outlines))]
pub fn outline(content: &[u8], rows: &mut [i64]) -> Result<Planned, Refusal>
    requires { (22 ≤ length content.now) × (length content.now ≤ 65535) × (length rows.old % 8 ≡ 0) }
    ensures said { said_of result rows.new ≡ (of_markup content.now and_then in_room (length rows.old)) }
    ensures few { Few result × (length rows.new ≡ length rows.old) }
{
    let reached = read(content, FIRST_LINE, rows);
    if reached.number != 0 {
        return Err(Refusal {
            number: reached.number,
            place: reached.place,
        });
    }
    let state = reached.state;
    let judge = state.judge;
    let tally = state.tally;
    settled(
        judge.least,
        tally.leaves,
        tally.records,
        tally.total,
        tally.root,
    )
}
