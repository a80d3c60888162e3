// FNV-1a with 64 bits, over bytes and over the numbers of a table.
#![tactic(auto)]

ghost use Rattle.std.specs.Prelude.{◌≡◌, bit_xor};
ghost use Rattle.cdi.specs.Values.{bytes_of, complement};
ghost use Rattle.frames_hash.specs.Hash.{times_prime, hash_from, hash_of, table_bytes};

use extent::{fall, rise};

const BASIS: u64 = 14695981039346656037;

// Times the prime 2^40 + 435, without the bits above 64: the second part is taken in halves.
fn times_prime(h: u64) -> u64
    ensures { result ≡ times_prime h }
{
    let high = (h % 0x100_0000) * 0x100_0000_0000;
    let low = (h % 0x1_0000_0000) * 435;
    let middle = ((h / 0x1_0000_0000) * 435) % 0x1_0000_0000 * 0x1_0000_0000;
    std::num::wrapping_add_u64(high, std::num::wrapping_add_u64(middle, low))
}

// Two's complement.
fn bits(z: i64) -> u64
    ensures { result ≡ complement 8 z }
{
    std::num::wrapping_sub_u64(rise(z), fall(z))
}

// One byte more.
fn with_byte(h: u64, b: u8) -> u64
    ensures { result ≡ times_prime (bit_xor h b) }
{
    times_prime(h ^ u64::from(b))
}

// These bytes, behind those before them.
fn with_bytes(h: u64, bytes: &[u8]) -> u64
    ensures { result ≡ hash_from h bytes.now }
{
    let mut sum = h;
    for b in bytes {
        sum = with_byte(sum, *b);
    }
    sum
}

// The eight bytes of a number, behind those before them.
pub fn with_number(h: u64, z: i64) -> u64
    ensures { result ≡ hash_from h (bytes_of 8 (complement 8 z)) }
{
    let mut bytes = [0u8; 8];
    values::put_number(&mut bytes, bits(z));
    with_bytes(h, &bytes)
}

pub fn hash_bytes(bytes: &[u8]) -> u64
    ensures { result ≡ hash_of bytes.now }
{
    with_bytes(BASIS, bytes)
}

// The numbers of a table.
pub fn hash(table: &[i64]) -> u64
    ensures { result ≡ hash_of (table_bytes table.now) }
{
    let mut sum = BASIS;
    for z in table {
        sum = with_number(sum, *z);
    }
    sum
}
