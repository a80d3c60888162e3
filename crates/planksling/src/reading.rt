// Values out of a window.

ghost use Rattle.std.specs.Prelude.{◌≡◌};
ghost use Rattle.cdi.specs.Faults.{accepted};
ghost use Rattle.access_lookup.specs.Told.{known_of};
ghost use Rattle.outcomes.specs.Outcomes.{number_in, place_after, value_after};
ghost use Rattle.planksling_out.specs.Readings.{Shown};
ghost use Rattle.planksling.specs.Answers.{shown};

use access::{read, read_known};
use planksling_out::tell_read;

// Reads variable n; or 1 to 7, 81 to 88, 9 to 12, 20, 21, 26 to 28.
pub fn planksling_read(
    text: &[u8],
    table: &[i64],
    n: u64,
    space: u64,
    first: u64,
    window: &[u8],
    kind: &mut u64,
    negative: &mut u64,
    number: &mut u64,
    from: &mut usize,
    to: &mut usize,
    writable: &mut u64,
    place: &mut usize,
) -> usize
    ensures value { result ≡ number_in (shown text.now table.now n space first window.now) }
    ensures kind_after { kind.new ≡ value_after (λ (a : Shown). a.kind) (shown text.now table.now n space first window.now) kind.old }
    ensures negative_after { negative.new ≡ value_after (λ (a : Shown). a.negative) (shown text.now table.now n space first window.now) negative.old }
    ensures number_after { number.new ≡ value_after (λ (a : Shown). a.number) (shown text.now table.now n space first window.now) number.old }
    ensures from_after { from.new ≡ value_after (λ (a : Shown). a.from) (shown text.now table.now n space first window.now) from.old }
    ensures to_after { to.new ≡ value_after (λ (a : Shown). a.to) (shown text.now table.now n space first window.now) to.old }
    ensures writable_after { writable.new ≡ value_after (λ (a : Shown). a.writable) (shown text.now table.now n space first window.now) writable.old }
    ensures place_after { place.new ≡ place_after (shown text.now table.now n space first window.now) place.old }
{
    let told = read(text, table, n, space, first, window);
    tell_read(told, kind, negative, number, from, to, writable, place)
}

// Reads variable n of a text and a table that have been checked; the place of every refusal is 0.
pub fn planksling_read_checked(
    text: &[u8],
    end: usize,
    table: &[i64],
    n: u64,
    space: u64,
    first: u64,
    window: &[u8],
    kind: &mut u64,
    negative: &mut u64,
    number: &mut u64,
    from: &mut usize,
    to: &mut usize,
    writable: &mut u64,
) -> usize
    requires { known_of text.now table.now ≡ accepted end }
    ensures value { result ≡ number_in (shown text.now table.now n space first window.now) }
    ensures kind_after { kind.new ≡ value_after (λ (a : Shown). a.kind) (shown text.now table.now n space first window.now) kind.old }
    ensures negative_after { negative.new ≡ value_after (λ (a : Shown). a.negative) (shown text.now table.now n space first window.now) negative.old }
    ensures number_after { number.new ≡ value_after (λ (a : Shown). a.number) (shown text.now table.now n space first window.now) number.old }
    ensures from_after { from.new ≡ value_after (λ (a : Shown). a.from) (shown text.now table.now n space first window.now) from.old }
    ensures to_after { to.new ≡ value_after (λ (a : Shown). a.to) (shown text.now table.now n space first window.now) to.old }
    ensures writable_after { writable.new ≡ value_after (λ (a : Shown). a.writable) (shown text.now table.now n space first window.now) writable.old }
{
    let told = read_known(text, end, table, n, space, first, window);
    let mut place = 0;
    tell_read(told, kind, negative, number, from, to, writable, &mut place)
}
