// The numbers that an int's size can store.
#![tactic(auto)]

ghost use Rattle.std.specs.Prelude.{◌≡◌, ◌*◌, ◌-◌, ◌^◌, ◌≤◌};
ghost use Rattle.cdi.specs.Rules.{smallest, largest};
ghost use Rattle.numbers.specs.Held.{low_of, high_of};

use numbers::Range;

// Half of the numbers that a size can store.
fn half(size: u8) -> u64
    requires { size ≤ 8 }
    ensures value { result ≡ 2 ^ (8 * size - 1) }
    ensures bounds { (1 ≤ result) × (result ≤ 0x8000_0000_0000_0000) }
{
    1 << (8 * size).saturating_sub(1)
}

// The numbers that the size can store, signed or not.
pub fn range_of(signed: bool, size: u8) -> Range
    requires { (1 ≤ size) × (size ≤ 8) }
    ensures sign { result.negative ≡ signed }
    ensures low { low_of result ≡ smallest signed size }
    ensures high { high_of result ≡ largest signed size }
{
    let most = half(size);
    if signed {
        Range {
            negative: true,
            low: most,
            high: most - 1,
        }
    } else {
        Range {
            negative: false,
            low: 0,
            high: most + (most - 1),
        }
    }
}
