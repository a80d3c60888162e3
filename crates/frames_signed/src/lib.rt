// Numbers of 64 bits with their sign.
#![tactic(auto)]

ghost use Rattle.std.specs.Prelude.{◌≡◌, true};
ghost use Rattle.cdi.specs.Values.{uncomplement};

// Two's complement.
pub fn signed(v: u64) -> i64
    ensures { result ≡ uncomplement true 8 v }
{
    v.cast_signed()
}
