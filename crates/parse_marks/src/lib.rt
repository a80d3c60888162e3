// A piece that is neither a tag nor a run of text: a comment, an instruction, a reference, or what is refused.
#![tactic(auto)]

ghost use Rattle.std.specs.Prelude.{◌≡◌, ◌<◌, length};
ghost use Rattle.parse_marks.specs.Rare.{rare_fault, is_refer, Rares};

use pieces::piece_at;
use pieces_cuts::Kind;

// `number` is that of its refusal, or 0; `refers` tells a reference.
#[derive(Clone, Copy)]
pub struct Rare {
    pub number: usize,
    pub end: usize,
    pub refers: bool,
}

// The number of its refusal, by its kind.
fn number_of(kind: Kind) -> usize
    ensures { result ≡ rare_fault kind }
{
    match kind {
        Kind::Start => 0,
        Kind::Finish => 0,
        Kind::Remark => 0,
        Kind::Refer => 0,
        Kind::Text => 0,
        Kind::Malformed => 4,
        Kind::Unsupported => 5,
    }
}

// Is it a reference?
fn is_refer(kind: Kind) -> bool
    ensures { result ≡ is_refer kind }
{
    match kind {
        Kind::Start => false,
        Kind::Finish => false,
        Kind::Remark => false,
        Kind::Refer => true,
        Kind::Text => false,
        Kind::Malformed => false,
        Kind::Unsupported => false,
    }
}

// The piece at this place.
pub fn rare_at(s: &[u8], at: usize) -> Rare
    requires { at < length s.now }
    ensures { Rares s.now at result.number result.end result.refers }
{
    let c = piece_at(s, at);
    let kind = c.kind;
    Rare {
        number: number_of(kind),
        end: c.end,
        refers: is_refer(kind),
    }
}
