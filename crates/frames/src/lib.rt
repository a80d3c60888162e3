// The fields of frames, read from standard input: bytes, and numbers that are big-endian. A field is `None` where the input ended in it or where it is
// beyond its limit.
#![tactic(auto)]

ghost use Rattle.std.specs.Prelude.{◌≡◌, true, ◌*◌, ◌≤◌, IfSome, length};
ghost use Rattle.std.specs.Int.{w64, from_be_bytes};
ghost use Rattle.cdi.specs.Values.{uncomplement};
ghost use Rattle.frames.specs.Limits.{keeps};

use frames_signed::signed;

// The next byte, if there is one.
pub fn read_byte() -> Option<u8> {
    let mut b = [0u8; 1];
    if io::read_full(0, &mut b) < 1 {
        return None;
    }
    Some(b[0])
}

// Eight bytes.
pub fn read_number() -> Option<u64> {
    let mut b = [0u8; 8];
    if io::read_full(0, &mut b) < 8 {
        return None;
    }
    Some(u64::from_be_bytes(b))
}

// Four bytes, and not above the limit.
#[tactic(auto, unfolding(crate::specs::Limits::keeps))]
pub fn read_length(limit: u64) -> Option<u64>
    ensures { keeps limit result ≡ true }
{
    let mut b = [0u8; 4];
    if io::read_full(0, &mut b) < 4 {
        return None;
    }
    let length = u64::from(u32::from_be_bytes(b));
    if limit < length {
        return None;
    }
    Some(length)
}

// As many bytes as the part has.
pub fn read_bytes(part: &mut [u8]) -> bool {
    io::read_full(0, part) == part.len()
}

// A length that the buffer has room for, and that many bytes to its front.
#[tactic(auto, using(crate::proofs::Kept::kept))]
pub fn read_part(buffer: &mut [u8]) -> Option<usize>
    ensures { IfSome result (λ size. size ≤ length buffer.old) }
{
    let size = read_length(buffer.len() as u64)? as usize;
    if read_bytes(&mut buffer[..size]) {
        Some(size)
    } else {
        None
    }
}

// Eight bytes as a number with its sign.
fn number_of(bytes: [u8; 8]) -> i64
    ensures { result ≡ uncomplement true 8 (from_be_bytes w64 bytes) }
{
    signed(u64::from_be_bytes(bytes))
}

// The numbers of a block to the front of a part of the table.
fn decode(block: &[u8], part: &mut [i64])
    requires { length part.old * 8 ≤ length block.now }
{
    for (i, number) in part.iter_mut().enumerate() {
        let mut b = [0u8; 8];
        b.copy_from_slice(&block[i * 8..i * 8 + 8]);
        *number = number_of(b);
    }
}

// As many numbers as the part has, through a block that holds them.
fn read_block(part: &mut [i64], block: &mut [u8]) -> bool {
    if block.len() / 8 < part.len() {
        return false;
    }
    let bytes = &mut block[..part.len() * 8];
    if !read_bytes(bytes) {
        return false;
    }
    decode(bytes, part);
    true
}

// As many numbers as the part has, in blocks of 1,024.
fn read_table(table: &mut [i64], block: &mut [u8]) -> bool {
    for part in table.chunks_mut(1024) {
        if !read_block(part, block) {
            return false;
        }
    }
    true
}

// A count that the table has room for, and that many numbers to its front.
#[tactic(auto, using(crate::proofs::Kept::kept))]
pub fn read_numbers(table: &mut [i64], block: &mut [u8]) -> Option<usize>
    ensures { IfSome result (λ count. count ≤ length table.old) }
{
    let count = read_length(table.len() as u64)? as usize;
    if read_table(&mut table[..count], block) {
        Some(count)
    } else {
        None
    }
}
