// A block judged, and one block behind the other.
#![tactic(auto)]

ghost use Rattle.std.specs.Prelude.{◌≡◌, ◌*◌, ◌≤◌, length};
ghost use Rattle.blocks.specs.Backups.{is_length_good, is_good, cause_of, judging, first_bad};
ghost use Rattle.backups_judge.specs.Told.{is_end_good, bad_of, judged_of};

use backups_check::is_checked;
use backups_parts::{is_blank, last_flag, pair_in, space_of};
use refusals::Refusal;
use values::number_in;

// Is this the length of the payload of a block with so many behind it?
fn is_length_good(behind: usize, used: u64) -> bool
    ensures { result ≡ is_length_good behind used }
{
    if behind == 0 {
        (1..=502).contains(&used)
    } else {
        used == 502
    }
}

// Are the flag and the padding of a block good, of which so many bytes are used?
fn is_end_good(b: &[u8], behind: usize, used: usize) -> bool
    requires { (length b.now ≡ 512) × (used ≤ 502) }
    ensures { result ≡ is_end_good behind used b.now }
{
    b[7] == last_flag(behind) && is_blank(&b[8 + used..510])
}

// Is the block good at this position, with so many behind it, in a backup of this space?
fn is_good(b: &[u8], position: usize, behind: usize, space: u64) -> bool
    requires { length b.now ≡ 512 }
    ensures { result ≡ is_good position behind space b.now }
{
    let used = pair_in(&b[4..6]);
    number_in(&b[..4]) == position as u64
        && space_of(b) == space
        && used <= 502
        && is_length_good(behind, used)
        && is_end_good(b, behind, used as usize)
}

// What is wrong with the block at this position.
fn cause_of(b: &[u8], position: usize, behind: usize, space: u64) -> Result<(), Refusal>
    requires { length b.now ≡ 512 }
    ensures { bad_of result ≡ cause_of position behind space b.now }
{
    if !is_checked(b) {
        return Err(Refusal {
            number: 43,
            place: position,
        });
    }
    if !is_good(b, position, behind, space) {
        return Err(Refusal {
            number: 44,
            place: position,
        });
    }
    Ok(())
}

// Judges a block by itself: any bytes, as the one at this position with so many behind it in a backup of this space.
pub fn judge(b: &[u8], position: usize, behind: usize, space: u64) -> Result<(), Refusal>
    ensures { judged_of result ≡ judging position behind space b.now }
{
    if b.len() != 512 {
        return Err(Refusal {
            number: 42,
            place: 0,
        });
    }
    cause_of(b, position, behind, space)
}

// The first bad block of so many, and its cause.
pub fn first_bad(b: &[u8], blocks: usize, space: u64) -> Result<(), Refusal>
    requires { length b.now ≡ 512 * blocks }
    ensures { bad_of result ≡ first_bad 0 blocks space b.now }
{
    for k in 0..blocks {
        let at = 512 * k;
        cause_of(&b[at..at + 512], k, blocks - k - 1, space)?;
    }
    Ok(())
}
