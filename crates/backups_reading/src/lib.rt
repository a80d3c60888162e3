// A window out of blocks. All blocks are judged before the first byte is stored.
#![tactic(auto)]

ghost use Rattle.std.specs.Prelude.{◌≡◌, ◌+◌, ◌*◌, ◌≤◌, length};
ghost use Rattle.std.proofs.Math.Option.{none};
ghost use Rattle.blocks.specs.Backups.{kept, output_after, first_bad, payloads, room_for, restoring, after_restoring};
ghost use Rattle.backups_reading.specs.Told.{read_of, with_payload};

use backups_judge::first_bad;
use backups_parts::{copy, pair_in, payload_end, space_of};
use refusals::Refusal;

// What is told of a window that was read: the number of its bytes, and its space.
#[derive(Clone, Copy)]
pub struct Read {
    pub size: usize,
    pub space: u64,
}

// The number of bytes of the window in so many good blocks: all but the last are full.
fn window_size(b: &[u8], blocks: usize, space: u64) -> usize
    requires { (1 ≤ blocks) × (length b.now ≡ 512 * blocks) × (first_bad 0 blocks space b.now ≡ none) }
    ensures { result ≡ length (payloads blocks b.now) }
{
    let before = blocks - 1;
    let at = 512 * before;
    502 * before + pair_in(&b[at + 4..at + 6]) as usize
}

// Puts the payload of the block at this position to its place.
fn put_payload(out: &mut [u8], position: usize, b: &[u8])
    requires { (502 * position ≤ length out.old) × (512 * position + 512 ≤ length b.now) }
    ensures { out.new ≡ with_payload position b.now out.old }
{
    let from = 502 * position;
    let to = payload_end(from, out.len());
    let at = 512 * position + 8;
    copy(&mut out[from..to], &b[at..at + (to - from)]);
}

// Fills the output with the payloads of so many good blocks.
fn put_payloads(out: &mut [u8], b: &[u8], blocks: usize, space: u64)
    requires { (length b.now ≡ 512 * blocks) × (first_bad 0 blocks space b.now ≡ none) × (length out.old ≡ length (payloads blocks b.now)) }
    ensures { out.new ≡ payloads blocks b.now }
{
    for k in 0..blocks {
        put_payload(out, k, b);
    }
}

// Puts the window of so many good blocks to the front of the output.
fn put_window(b: &[u8], blocks: usize, space: u64, out: &mut [u8]) -> Result<Read, Refusal>
    requires { (1 ≤ blocks) × (length b.now ≡ 512 * blocks) × (first_bad 0 blocks space b.now ≡ none) }
    ensures answer { read_of result ≡ room_for out.old (kept space (payloads blocks b.now)) }
    ensures after { out.new ≡ output_after (room_for out.old (kept space (payloads blocks b.now))) (payloads blocks b.now) out.old }
{
    let size = window_size(b, blocks, space);
    if out.len() < size {
        return Err(Refusal {
            number: 41,
            place: 0,
        });
    }
    put_payloads(&mut out[..size], b, blocks, space);
    Ok(Read { size, space })
}

// Reads a backup: the window's bytes go to the front of the output.
pub fn restore(b: &[u8], out: &mut [u8]) -> Result<Read, Refusal>
    ensures answer { read_of result ≡ restoring b.now out.old }
    ensures after { out.new ≡ after_restoring b.now out.old }
{
    if b.is_empty() || b.len() % 512 != 0 {
        return Err(Refusal {
            number: 42,
            place: 0,
        });
    }
    let blocks = b.len() / 512;
    let space = space_of(b);
    first_bad(b, blocks, space)?;
    put_window(b, blocks, space, out)
}
