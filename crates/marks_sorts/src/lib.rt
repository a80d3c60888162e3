// The sort of the piece at a place, by its first two bytes.
#![tactic(auto)]

ghost use Rattle.std.specs.Prelude.{◌≡◌, ◌≤◌, ◌<◌, length, drop};
ghost use Rattle.marks_cuts.specs.Marks.{sort_at};

use scan::byte_at;

// 0 a start tag, 1 an end tag, 2 a run of text, 3 another piece; each may turn out malformed.
pub fn sort_of(s: &[u8], at: usize) -> usize
    requires { at < length s.now }
    ensures value { result ≡ sort_at (drop at s.now) }
    ensures bounds { result ≤ 3 }
{
    let b = s[at];
    if b == 60 {
        let c = byte_at(s, at + 1);
        if c == 47 {
            return 1;
        }
        if c == 33 {
            return 3;
        }
        if c == 63 {
            return 3;
        }
        return 0;
    }
    if b == 38 {
        return 3;
    }
    2
}
