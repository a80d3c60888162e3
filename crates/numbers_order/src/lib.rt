// Numbers compared, however large they are.
#![tactic(auto)]

ghost use Rattle.std.specs.Prelude.{◌≡◌, ◌<◌, ◌^◌, eqb, leb};
ghost use Rattle.std.specs.Int.Signed.{le_z};
ghost use Rattle.numbers.specs.Held.{size_of, nearest};
ghost use Rattle.numbers_order.specs.Equal.{is_equal};

use numbers::Signed;

#[tactic(auto, unfolding(numbers::specs::Held::size_of))]
fn is_nought(n: Signed) -> bool
    ensures { result ≡ eqb (size_of n) 0 }
{
    !n.large && n.magnitude == 0
}

// Is the magnitude of a at most that of b?
#[tactic(auto, unfolding(numbers::specs::Held::size_of))]
fn is_no_larger(a: Signed, b: Signed) -> bool
    ensures { result ≡ leb (size_of a) (size_of b) }
{
    b.large || !a.large && a.magnitude <= b.magnitude
}

// Is a at most b? Large numbers of one sign count as equal.
pub fn is_at_most(a: Signed, b: Signed) -> bool
    ensures { result ≡ le_z (nearest a) (nearest b) }
{
    match (a.negative, b.negative) {
        (true, true) => is_no_larger(b, a),
        (true, false) => true,
        (false, true) => is_nought(a) && is_nought(b),
        (false, false) => is_no_larger(a, b),
    }
}

// Is the number that was read this one? Minus zero is zero.
#[tactic(auto, unfolding(crate::specs::Equal::is_equal))]
pub fn is_equal(n: Signed, negative: bool, magnitude: u64) -> bool
    ensures { (result ≡ is_equal n negative magnitude) × (magnitude < 2 ^ 64) }
{
    !n.large && n.magnitude == magnitude && (magnitude == 0 || n.negative == negative)
}
