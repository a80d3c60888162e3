// Cuts that have no name and no text.

ghost use Rattle.std.specs.Prelude.{◌≡◌, [], ◌≤◌, ◌<◌, length, drop};
ghost use Rattle.cdi.specs.Pieces.{remark, refer, malformed as no_piece, unsupported as foreign};
ghost use Rattle.pieces_cuts.specs.Cuts.{plain_cut, Cuts};

use crate::{Cut, Kind};

// A cut of this kind that ends here, and refers to this character.
fn plain(kind: Kind, end: usize, code: u32) -> Cut
    ensures { result ≡ plain_cut kind end code }
{
    Cut {
        kind,
        name: 0,
        behind: 0,
        end,
        solid: 0,
        code,
        short: false,
        refers: false,
    }
}

// No piece: s keeps to no rule.
pub fn malformed(s: &[u8]) -> Cut
    requires { 0 < length s.now }
    ensures { Cuts s.now 0 (no_piece, []) result }
{
    plain(Kind::Malformed, s.len(), 0)
}

// What document 01 leaves out.
pub fn unsupported(s: &[u8]) -> Cut
    requires { 0 < length s.now }
    ensures { Cuts s.now 0 (foreign, []) result }
{
    plain(Kind::Unsupported, s.len(), 0)
}

// A comment or an instruction that ends here.
pub fn passed(s: &[u8], end: usize) -> Cut
    requires { (0 < end) × (end ≤ length s.now) }
    ensures { Cuts s.now 0 (remark, drop end s.now) result }
{
    plain(Kind::Remark, end, 0)
}

// A reference to this character that ends here.
pub fn character(s: &[u8], code: u32, end: usize) -> Cut
    requires { (0 < end) × (end ≤ length s.now) }
    ensures { Cuts s.now 0 (refer code, drop end s.now) result }
{
    plain(Kind::Refer, end, code)
}
