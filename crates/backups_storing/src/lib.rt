// A window into blocks.
#![tactic(auto)]

ghost use Rattle.std.specs.Prelude.{◌≡◌, ◌+◌, ◌*◌, ◌<◌, ◌≤◌, length};
ghost use Rattle.blocks.specs.Backups.{kept, blocks_from, storing, after_storing};
ghost use Rattle.backups_storing.specs.Told.{stored_of, with_block};

use backups_block::put_block;
use backups_parts::{last_flag, payload_end};
use refusals::Refusal;

// Fills the block at this position, with so many behind it.
fn put_nth(out: &mut [u8], position: usize, behind: usize, space: u8, bytes: &[u8])
    requires { (512 * position + 512 ≤ length out.old) × (502 * position ≤ length bytes.now) }
    ensures { out.new ≡ with_block position behind space bytes.now out.old }
{
    let from = 502 * position;
    let to = payload_end(from, bytes.len());
    let at = 512 * position;
    put_block(
        &mut out[at..at + 512],
        position as u64,
        space,
        last_flag(behind),
        &bytes[from..to],
    );
}

// Fills the output with so many blocks.
fn put_blocks(out: &mut [u8], blocks: usize, space: u8, bytes: &[u8])
    requires { (length out.old ≡ 512 * blocks) × (502 * blocks < length bytes.now + 502) }
    ensures { out.new ≡ blocks_from 0 blocks space bytes.now }
{
    for k in 0..blocks {
        put_nth(out, k, blocks - k - 1, space, bytes);
    }
}

// Stores a window's bytes, of this space, in blocks at the front of the output, and tells how many bytes these are.
pub fn store(space: u64, bytes: &[u8], out: &mut [u8]) -> Result<usize, Refusal>
    ensures answer { stored_of result ≡ storing (kept space bytes.now) out.old }
    ensures after { out.new ≡ after_storing (kept space bytes.now) out.old }
{
    if bytes.is_empty() || 4294967296 < bytes.len() || 255 < space {
        return Err(Refusal {
            number: 40,
            place: 0,
        });
    }
    let blocks = bytes.len().div_ceil(502);
    let size = 512 * blocks;
    if out.len() < size {
        return Err(Refusal {
            number: 41,
            place: 0,
        });
    }
    put_blocks(&mut out[..size], blocks, space as u8, bytes);
    Ok(size)
}
