// Stages 8 to 12, in their order.
#![tactic(auto)]

ghost use Rattle.std.specs.Prelude.{◌≡◌, Ok};
ghost use Rattle.judges_state.specs.Decoded.{least_in};
ghost use Rattle.tallies_state.specs.Flat.{leaves_of};
ghost use Rattle.plan_stages.specs.Outlines.{counted_by, addressed_by, ruled_by, settled_by};

use keys::{NOTHING, number_of};
use refusals::Refusal;
use tallies_state::NEVER;
use terms::MOST_VARIABLES;

// A description's records and variables.
#[derive(Clone, Copy, Debug, PartialEq, Eq)]
pub struct Planned {
    pub records: usize,
    pub variables: u64,
}

// Stage 12: the count of variables.
#[tactic(auto, using(crate::proofs::Settling::settling))]
fn counted(records: usize, variables: u64, root: usize) -> Result<Planned, Refusal>
    ensures { result ≡ counted_by records variables root }
{
    if variables <= MOST_VARIABLES {
        return Ok(Planned { records, variables });
    }
    Err(Refusal {
        number: 12,
        place: root,
    })
}

// Stage 11: addresses.
#[tactic(auto, using(crate::proofs::Settling::settling))]
fn addressed(leaves: usize) -> Result<(), Refusal>
    ensures { result ≡ addressed_by (leaves_of leaves) (Ok tt) }
{
    if leaves == NEVER {
        return Ok(());
    }
    Err(Refusal {
        number: 11,
        place: leaves,
    })
}

// Stages 8 to 10: the least fault against the table of elements.
#[tactic(auto, using(crate::proofs::Settling::settling))]
fn ruled(least: usize) -> Result<(), Refusal>
    ensures { result ≡ ruled_by (least_in least) (Ok tt) }
{
    if least == NOTHING {
        return Ok(());
    }
    Err(Refusal {
        number: number_of(least % 128),
        place: least / 128,
    })
}

// Stages 8 to 12, of what was summed up over all elements: the least fault, the first segment that leaves the addresses, records, variables and the
// root's place.
#[tactic(auto, using(crate::proofs::Settling::stages_passed), unfolding(crate::specs::Outlines::settled_by))]
pub fn settled(
    least: usize,
    leaves: usize,
    records: usize,
    variables: u64,
    root: usize,
) -> Result<Planned, Refusal>
    ensures { result ≡ settled_by (least_in least) (leaves_of leaves) records variables root }
{
    ruled(least)?;
    addressed(leaves)?;
    counted(records, variables, root)
}
