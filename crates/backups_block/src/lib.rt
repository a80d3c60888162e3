// A block put together: number, length, space, flag, payload with zeros behind it, check.
#![tactic(auto)]

ghost use Rattle.std.specs.Prelude.{◌≡◌, [], ◌∷◌, ◌++◌, ◌≤◌, length, replicate};
ghost use Rattle.cdi.specs.Values.{bytes_of, padded};
ghost use Rattle.blocks.specs.Blocks.{front_of, block};

use backups_check::check_of;
use backups_parts::copy;
use values::put_number;

// ── before the payload ──

// Fills the two bytes behind a block's number and length.
fn put_marks(part: &mut [u8], space: u8, flag: u8)
    requires { length part.old ≡ 2 }
    ensures { part.new ≡ space ∷ flag ∷ [] }
{
    part[0] = space;
    part[1] = flag;
}

// Fills the four bytes behind a block's number.
fn put_use(part: &mut [u8], used: u64, space: u8, flag: u8)
    requires { length part.old ≡ 4 }
    ensures { part.new ≡ bytes_of 2 used ++ (space ∷ flag ∷ []) }
{
    let (length, marks) = part.split_at_mut(2);
    put_number(length, used);
    put_marks(marks, space, flag);
}

// Fills the eight bytes before a block's payload.
fn put_head(part: &mut [u8], number: u64, used: u64, space: u8, flag: u8)
    requires { length part.old ≡ 8 }
    ensures { part.new ≡ bytes_of 4 number ++ (bytes_of 2 used ++ (space ∷ flag ∷ [])) }
{
    let (position, rest) = part.split_at_mut(4);
    put_number(position, number);
    put_use(rest, used, space, flag);
}

// ── the payload ──

// Fills the part with the payload and zeros behind it.
fn put_area(part: &mut [u8], payload: &[u8])
    requires { length payload.now ≤ length part.old }
    ensures { part.new ≡ padded (length part.old) payload.now }
{
    let (front, rest) = part.split_at_mut(payload.len());
    copy(front, payload);
    rest.fill(0);
}

// ── the block ──

// Fills the first 510 bytes of a block.
fn put_front(part: &mut [u8], number: u64, space: u8, flag: u8, payload: &[u8])
    requires { (length part.old ≡ 510) × (length payload.now ≤ 502) }
    ensures { part.new ≡ front_of number space flag payload.now }
{
    let (head, area) = part.split_at_mut(8);
    put_head(head, number, payload.len() as u64, space, flag);
    put_area(area, payload);
}

// Fills a block.
pub fn put_block(part: &mut [u8], number: u64, space: u8, flag: u8, payload: &[u8])
    requires { (length part.old ≡ 512) × (length payload.now ≤ 502) }
    ensures { part.new ≡ block number space flag payload.now }
{
    let (front, check) = part.split_at_mut(510);
    put_front(front, number, space, flag, payload);
    put_number(check, check_of(front));
}
