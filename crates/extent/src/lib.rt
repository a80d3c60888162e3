// What a stretch of the walk does to the count of variables and to the address, in numbers that never grow past 64 bits.
//
// An extent knows no address: it counts heights above the lowest address that its stretch reaches, the one it starts at included. So the
// same extent serves every start, and only `rise` and `fall` touch a sign.
#![tactic(auto)]

ghost use Rattle.std.specs.Prelude.{◌≡◌, ◌≤◌, ◌<◌, ◌+◌, ◌-◌, ◌*◌, ◌^◌, max, neg_ℤ};
ghost use Rattle.cdi.specs.Rules.{natural};
ghost use Rattle.extent.specs.Reach.{Small, nowhere, by_offset, by_size, join, repeat, fits_at, held};

use terms::{LAST_ADDRESS, MOST_VARIABLES};

// The variables met, and the heights of the first, the last and the highest address. A count above 1,000,000 is 1,000,001. A stretch that
// spans more than 2^32 fits no start: its span is 2^32 + 1, and all else 0.
#[derive(Clone, Copy)]
pub struct Extent {
    pub count: u64,
    pub below: u64,
    pub ends: u64,
    pub span: u64,
}

// What a number adds where it isn't negative, else 0.
pub fn rise(z: i64) -> u64
    ensures { (result ≡ natural z) × (result < 2 ^ 63) }
{
    if z < 0 { 0 } else { z as u64 }
}

// What a number takes away where it is negative, else 0.
pub fn fall(z: i64) -> u64
    ensures { (result ≡ natural (neg_ℤ z)) × (result ≤ 2 ^ 63) }
{
    if z < 0 { z.unsigned_abs() } else { 0 }
}

// The extent of no step.
pub fn nothing() -> Extent
    ensures { (result ≡ nowhere) × Small result }
{
    Extent {
        count: 0,
        below: 0,
        ends: 0,
        span: 0,
    }
}

// These numbers as an extent holds them.
fn hold(count: u64, below: u64, ends: u64, span: u64) -> Extent
    requires { (below ≤ span) × (ends ≤ span) }
    ensures { (result ≡ held (record { count = count; below = below; ends = ends; span = span })) × Small result }
{
    if LAST_ADDRESS < span {
        Extent {
            count: 0,
            below: 0,
            ends: 0,
            span: LAST_ADDRESS + 1,
        }
    } else {
        Extent {
            count: count.min(MOST_VARIABLES + 1),
            below,
            ends,
            span,
        }
    }
}

// The extent of adding an offset.
pub fn moved(offset: i64) -> Extent
    ensures { (result ≡ held (by_offset offset)) × Small result }
{
    let up = rise(offset);
    let down = fall(offset);
    hold(0, down, up, up + down)
}

// The extent of a variable, which adds its size.
pub fn stood(size: u64) -> Extent
    ensures { (result ≡ held (by_size size)) × Small result }
{
    hold(1, 0, size, size)
}

// The extent of one stretch and another after it. Where the second goes below the lowest address of the first, the first lies higher by
// that much, and the other way round.
pub fn joined(first: Extent, second: Extent) -> Extent
    requires { Small first × Small second }
    ensures { (result ≡ held (join first second)) × Small result }
{
    let lifts_first = second.below.saturating_sub(first.ends);
    let lifts_second = first.ends.saturating_sub(second.below);
    let span = (first.span + lifts_first).max(second.span + lifts_second);
    hold(
        first.count + second.count,
        first.below + lifts_first,
        second.ends + lifts_second,
        span,
    )
}

// times * size, for numbers whose product can't wrap.
fn multiple(times: u64, size: u64) -> u64
    requires { (times < 2 ^ 31) × (size ≤ 2 ^ 32 + 1) }
    ensures { (result ≡ times * size) × (result ≤ (2 ^ 31 - 1) * (2 ^ 32 + 1)) }
{
    times * size
}

// The extent of a stretch walked `replication` times: every copy after the first goes on by what one copy changes.
pub fn repeated(replication: u64, once: Extent) -> Extent
    requires { (1 ≤ replication) × (replication ≤ 2147483647) × Small once }
    ensures { (result ≡ held (repeat replication once)) × Small result }
{
    let down = once.below.saturating_sub(once.ends);
    let up = once.ends.saturating_sub(once.below);
    let later = replication - 1;
    let falls = multiple(later, down);
    let rises = multiple(later, up);
    let count = multiple(replication, once.count);
    hold(
        count,
        once.below + falls,
        once.ends + rises,
        once.span + (falls + rises),
    )
}

// Whether a stretch that starts at `origin` keeps every address from 0 to 2^32.
pub fn fits(origin: u64, stretch: Extent) -> bool
    requires { (origin ≤ 2 ^ 32) × Small stretch }
    ensures { result ≡ fits_at origin stretch }
{
    stretch.below <= origin && origin + stretch.span <= LAST_ADDRESS + stretch.below
}
