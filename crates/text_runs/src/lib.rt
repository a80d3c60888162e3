// Runs of bytes that pass a test, eight bytes at a step: bytes that are characters by themselves, and bytes other than zero.
#![tactic(auto)]

ghost use Rattle.std.specs.Prelude.{◌≡◌, ℕ, Bool, true, ◌+◌, ◌≤◌, length};
ghost use Rattle.text_runs.specs.Runs.{plain, nonzero, AllOf};

// How many bytes are examined at a step.
const STEP: usize = 8;

// A test of one byte, without branches, so that eight of them become one.
trait Test {
    ghost passing: { ℕ → Bool };

    fn passes(b: u8) -> bool
        ensures { result ≡ passing b };
}

// Bytes that are by themselves characters that may stand in the content, as most bytes are.
struct Plain;

// Bytes other than zero.
struct Nonzero;

impl Test for Plain {
    ghost passing = { plain };

    fn passes(b: u8) -> bool {
        is_plain(b)
    }
}

impl Test for Nonzero {
    ghost passing = { nonzero };

    fn passes(b: u8) -> bool {
        is_nonzero(b)
    }
}

// Is the byte by itself a character that may stand in the content?
pub fn is_plain(b: u8) -> bool
    ensures { result ≡ plain b }
{
    (((32 <= b) & (b <= 127)) | (b == 9)) | (b == 10)
}

// The same for one byte alone, where most that are none lie above all that are.
pub fn starts_run(b: u8) -> bool
    ensures { result ≡ plain b }
{
    b <= 127 && is_plain(b)
}

#[tactic(auto, unfolding(crate::specs::Runs::nonzero))]
fn is_nonzero(b: u8) -> bool
    ensures { result ≡ nonzero b }
{
    b != 0
}

// Do the eight bytes from this place on pass, by one test?
fn all_of_eight<T: Test>(s: &[u8], at: usize) -> bool
    requires { at + 8 ≤ length s.now }
    ensures { result ≡ true → AllOf T.passing s.now at (at + 8) }
{
    let mut good = true;
    for n in 0..STEP {
        good &= T::passes(s[at + n]);
    }
    good
}

// Where the run of such bytes from this place on stopped: at a byte that doesn't pass, or where fewer than eight are left.
fn run<T: Test>(s: &[u8], at: usize) -> usize
    requires { at ≤ length s.now }
    ensures { (at ≤ result) × (result ≤ length s.now) × AllOf T.passing s.now at result }
{
    let mut i = at;
    // A loop whose value is the place, left by a label: the specification's form (15.9).
    'run: loop {
        if s.len() - i < STEP {
            break i;
        }
        if !all_of_eight::<T>(s, i) {
            for k in 0..STEP {
                if !T::passes(s[i + k]) {
                    break 'run i + k;
                }
            }
        }
        i += STEP;
    }
}

// Where the run of characters by themselves stopped.
pub fn plain_run(s: &[u8], at: usize) -> usize
    requires { at ≤ length s.now }
    ensures { (at ≤ result) × (result ≤ length s.now) × AllOf plain s.now at result }
{
    run::<Plain>(s, at)
}

// Where the run of bytes other than zero stopped.
pub fn nonzero_run(s: &[u8], at: usize) -> usize
    requires { at ≤ length s.now }
    ensures { (at ≤ result) × (result ≤ length s.now) × AllOf nonzero s.now at result }
{
    run::<Nonzero>(s, at)
}
