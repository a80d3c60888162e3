// Parts of a block that storing, judging and reading share.
#![tactic(auto)]

ghost use Rattle.std.specs.Prelude.{◌≡◌, ◌+◌, ◌-◌, ◌*◌, min, ◌<◌, ◌≤◌, eqb, length};
ghost use Rattle.cdi.specs.Lists.{all};
ghost use Rattle.cdi.specs.Values.{value_of as number_of};
ghost use Rattle.blocks.specs.Blocks.{space};
ghost use Rattle.blocks.specs.Backups.{last_flag};

// Copies bytes to as many. No `copy_from_slice`: tried, and the archive then needs `memmove`, which those who link it need not have.
pub fn copy(part: &mut [u8], bytes: &[u8])
    requires { length part.old ≡ length bytes.now }
    ensures { part.new ≡ bytes.now }
{
    for i in 0..part.len() {
        part[i] = bytes[i];
    }
}

// The number that two bytes are.
pub fn pair_in(part: &[u8]) -> u64
    requires { length part.now ≡ 2 }
    ensures { (result ≡ number_of part.now) × (result < 65536) }
{
    u64::from(part[0]) * 256 + u64::from(part[1])
}

// The space that a block says, or the first of several.
pub fn space_of(b: &[u8]) -> u64
    requires { 512 ≤ length b.now }
    ensures { result ≡ space b.now }
{
    u64::from(b[6])
}

// The flag of a block with so many behind it.
pub fn last_flag(behind: usize) -> u8
    ensures { result ≡ last_flag behind }
{
    if behind == 0 { 1 } else { 0 }
}

// Where the payload that begins here ends, in a window of this size.
pub fn payload_end(from: usize, size: usize) -> usize
    requires { from ≤ size }
    ensures { (result ≡ from + min 502 (size - from)) × (from ≤ result) × (result ≤ size) × (result ≤ from + 502) }
{
    from + (size - from).min(502)
}

// Are all of these zero?
pub fn is_blank(part: &[u8]) -> bool
    ensures { result ≡ all (eqb 0) part.now }
{
    part.iter().all(|x| *x == 0)
}
