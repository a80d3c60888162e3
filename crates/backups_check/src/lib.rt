// The check of a block.
#![tactic(auto)]

ghost use Rattle.std.specs.Prelude.{◌≡◌, ◌+◌, ◌*◌, ◌<◌, length};
ghost use Rattle.blocks.specs.Blocks.{check_of};
ghost use Rattle.blocks.specs.Backups.{is_checked};

use backups_parts::pair_in;

// A 16-bit word with its lowest byte first.
fn turned_word(low: u8, high: u8) -> u32
    ensures { (result ≡ low + high * 256) × (result < 65536) }
{
    u32::from(low) + u32::from(high) * 256
}

// The check of a block's first 510 bytes. Words are summed with their lowest byte first, which is how the processor has them: 256 times such a word
// leaves what the word with its highest byte first leaves when divided by 65,535, since 65,536 leaves 1.
pub fn check_of(front: &[u8]) -> u64
    requires { length front.now ≡ 510 }
    ensures { result ≡ check_of front.now }
{
    let mut sum: u32 = 0;
    for k in 0..255 {
        let i = 2 * k;
        sum += turned_word(front[i], front[i + 1]);
    }
    u64::from(sum % 65535 * 256 % 65535)
}

// Does the block's check fit?
pub fn is_checked(b: &[u8]) -> bool
    requires { length b.now ≡ 512 }
    ensures { result ≡ is_checked b.now }
{
    let (front, check) = b.split_at(510);
    pair_in(check) == check_of(front)
}
