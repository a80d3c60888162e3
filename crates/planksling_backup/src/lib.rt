// The library of backups as C and other languages link it: a window stored in blocks that a shop can inspect, and read back. It needs nothing of the
// planner. Every call has a C name, takes slices as a pointer and a length, asks nothing of its caller, and returns 0 or the number of the refusal.
// One function for each name, with numbers lent for what is handed out: the C interface needs it.
#![tactic(auto)]

ghost use Rattle.std.specs.Prelude.{◌≡◌};
ghost use Rattle.blocks.specs.Backups.{Restored, kept, storing, after_storing, judging, restoring, after_restoring};
ghost use Rattle.outcomes.specs.Outcomes.{number_in, place_after, value_after};

use backups_judge::judge;
use backups_out::{tell_judged, tell_read, tell_stored};
use backups_reading::restore;
use backups_storing::store;

// Stores the window's bytes, of this space, in blocks at the front of the output, and tells how many bytes that are; or 40, 41.
#[unsafe(no_mangle)]
pub extern "C" fn planksling_backup_store(
    space: u64,
    window: &[u8],
    output: &mut [u8],
    stored: &mut usize,
    place: &mut usize,
) -> usize
    ensures value { result ≡ number_in (storing (kept space window.now) output.old) }
    ensures stored_after { stored.new ≡ value_after (λ n. n) (storing (kept space window.now) output.old) stored.old }
    ensures place_after { place.new ≡ place_after (storing (kept space window.now) output.old) place.old }
    ensures output_after { output.new ≡ after_storing (kept space window.now) output.old }
{
    tell_stored(store(space, window, output), stored, place)
}

// Reads a backup: the window's bytes go to the front of the output, and their number and the space are told; or 42, 43, 44, 41. The place of 43 and 44
// is the position of the block.
#[unsafe(no_mangle)]
pub extern "C" fn planksling_backup_read(
    backup: &[u8],
    output: &mut [u8],
    length: &mut usize,
    space: &mut u64,
    place: &mut usize,
) -> usize
    ensures value { result ≡ number_in (restoring backup.now output.old) }
    ensures length_after { length.new ≡ value_after (λ (a : Restored). a.size) (restoring backup.now output.old) length.old }
    ensures space_after { space.new ≡ value_after (λ (a : Restored). a.space) (restoring backup.now output.old) space.old }
    ensures place_after { place.new ≡ place_after (restoring backup.now output.old) place.old }
    ensures output_after { output.new ≡ after_restoring backup.now output.old }
{
    tell_read(restore(backup, output), length, space, place)
}

// Judges a block by itself, as the one at this position with so many behind it in a backup of this space: 0; or 42 where it isn't 512 bytes, 43, 44.
#[unsafe(no_mangle)]
pub extern "C" fn planksling_backup_judge(
    block: &[u8],
    position: usize,
    behind: usize,
    space: u64,
) -> usize
    ensures { result ≡ number_in (judging position behind space block.now) }
{
    tell_judged(judge(block, position, behind, space))
}
