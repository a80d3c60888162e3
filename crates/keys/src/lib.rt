// The least fault as one number: 128 times its place and the rank of its number; the largest number of 64 bits is none.
#![tactic(auto)]

ghost use Rattle.std.specs.Prelude.{◌≡◌, ◌≤◌, ◌<◌, max};
ghost use Rattle.std.proofs.Math.Option.{some};
ghost use Rattle.cdi.specs.Faults.{fault, unless, rank, lesser, least as least_of};
ghost use Rattle.keys.specs.Keys.{number_of, fault_in};

// No fault.
pub const NOTHING: usize = 0xFFFF_FFFF_FFFF_FFFF;

// The rank of a number among those at one place: 81 to 88 come before 9.
pub fn rank_of(number: usize) -> usize
    ensures value { result ≡ rank number }
    ensures bounds { result ≤ max number 88 }
{
    if number < 8 {
        return number;
    }
    if number < 81 {
        return number + 8;
    }
    if number < 89 {
        return number - 73;
    }
    number
}

// The number of a rank.
pub fn number_of(rank: usize) -> usize
    ensures { result ≡ number_of rank }
{
    if rank < 8 {
        return rank;
    }
    if rank < 16 {
        return rank + 73;
    }
    if rank < 89 {
        return rank - 8;
    }
    rank
}

// The key of a fault.
pub fn key_of(number: usize, place: usize) -> usize
    requires { (number < 128) × (place ≤ 65535) }
    ensures { fault_in result ≡ some (fault number place) }
{
    place * 128 + rank_of(number)
}

// The key of the lesser of two faults: the smaller place, and at one place the number of the smaller rank.
pub fn first_of(least: usize, key: usize) -> usize
    ensures { fault_in result ≡ lesser (fault_in least) (fault_in key) }
{
    if key < least {
        return key;
    }
    least
}

// The least with this fault more.
pub fn blame(least: usize, number: usize, place: usize) -> usize
    requires { (number < 128) × (place ≤ 65535) }
    ensures { fault_in result ≡ lesser (fault_in least) (some (fault number place)) }
{
    first_of(least, key_of(number, place))
}

// The least with this fault more, where the test has failed.
pub fn blame_unless(good: bool, least: usize, number: usize, place: usize) -> usize
    requires { (number < 128) × (place ≤ 65535) }
    ensures { fault_in result ≡ lesser (fault_in least) (least_of (unless good (fault number place))) }
{
    if good {
        return least;
    }
    blame(least, number, place)
}
