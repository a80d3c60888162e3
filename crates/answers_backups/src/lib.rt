// Frames `K` and `R`: a window stored in blocks, and a backup read back, each into an output of so much room.
#![tactic(auto)]

ghost use Rattle.std.specs.Prelude.{◌≤◌, IfSome};

use answers_out::lines::{Line, hashed, one, refused, two};
use answers_out::words;
use backups_reading::{Read, restore};
use backups_storing::store;
use frames::{read_number, read_part};
use frames_hash::hash_bytes;
use refusals::Refusal;

// ── the lent output ──

// Byte i of the output before a call: (7 i + 3) mod 256.
fn fill(output: &mut [u8]) {
    for (i, b) in output.iter_mut().enumerate() {
        *b = ((i % 256 * 7 + 3) % 256) as u8;
    }
}

// How many bytes the output has: 80,000 at most.
fn room() -> Option<usize>
    ensures { IfSome result (λ n. n ≤ 80000) }
{
    let n = read_number()?;
    if 80000 < n {
        return None;
    }
    Some(n as usize)
}

// ── the lines ──

// `stored LENGTH` or `refused NUMBER PLACE`
fn tell_stored(answer: Result<usize, Refusal>) -> Line
    ensures { result.count ≤ 4 }
{
    match answer {
        Ok(size) => one(words::STORED, size as u64),
        Err(refusal) => refused(refusal.number, refusal.place),
    }
}

// `restored LENGTH SPACE` or `refused NUMBER PLACE`
fn tell_read(answer: Result<Read, Refusal>) -> Line
    ensures { result.count ≤ 4 }
{
    match answer {
        Ok(read) => two(words::RESTORED, read.size as u64, read.space),
        Err(refusal) => refused(refusal.number, refusal.place),
    }
}

// ── the calls: each line ends in the hash of the whole output ──

fn stored(space: u64, window: &[u8], output: &mut [u8]) -> Line
    ensures { result.count ≤ 4 }
{
    fill(output);
    let answer = store(space, window, output);
    hashed(tell_stored(answer), hash_bytes(output))
}

fn restored(backup: &[u8], output: &mut [u8]) -> Line
    ensures { result.count ≤ 4 }
{
    fill(output);
    let answer = restore(backup, output);
    hashed(tell_read(answer), hash_bytes(output))
}

// The rest of a frame `K`.
pub fn frame_store(window: &mut [u8]) -> Option<Line>
    ensures { IfSome result (λ line. line.count ≤ 4) }
{
    let mut output = [0u8; 80000];
    let space = read_number()?;
    let size = read_part(window)?;
    let asked = room()?;
    Some(stored(space, &window[..size], &mut output[..asked]))
}

// The rest of a frame `R`.
pub fn frame_read() -> Option<Line>
    ensures { IfSome result (λ line. line.count ≤ 4) }
{
    let mut backup = [0u8; 80000];
    let mut output = [0u8; 80000];
    let size = read_part(&mut backup)?;
    let asked = room()?;
    Some(restored(&backup[..size], &mut output[..asked]))
}
