// The pieces of the content: which piece stands at a place, and where its parts stand. Each reader of one kind is handed the part of the
// content that starts with the piece, and counts places from there; `piece_at` alone counts them from the content's beginning.
#![tactic(auto)]

ghost use Rattle.std.specs.Prelude.{◌≡◌, [], ◌∷◌, true, ◌<◌, length};
ghost use Rattle.cdi.specs.Lists.{begins};
ghost use Rattle.cdi.specs.Pieces.{piece_at};
ghost use Rattle.pieces_cuts.specs.Cuts.{Cuts, Stands};

use pieces_cuts::Cut;
use pieces_cuts::cuts::unsupported;
use pieces_marks::{comment, instruction, text};
use pieces_references::reference;
use pieces_tags::{end_tag, start_tag};
use scan::begins_at;

// What begins with `<`.
fn markup(s: &[u8]) -> Cut
    requires { (0 < length s.now) × (begins (60 ∷ []) s.now ≡ true) }
    ensures { Cuts s.now 0 (piece_at 0 s.now) result }
{
    if begins_at(s, 0, b"<!DOCTYPE") {
        return unsupported(s);
    }
    if begins_at(s, 0, b"<![CDATA[") {
        return unsupported(s);
    }
    if begins_at(s, 0, b"<!--") {
        return comment(s);
    }
    if begins_at(s, 0, b"<?") {
        return instruction(s);
    }
    if begins_at(s, 0, b"</") {
        return end_tag(s);
    }
    start_tag(s)
}

// The piece that s begins with.
fn piece(s: &[u8]) -> Cut
    requires { 0 < length s.now }
    ensures { Cuts s.now 0 (piece_at 0 s.now) result }
{
    if begins_at(s, 0, b"<") {
        return markup(s);
    }
    if begins_at(s, 0, b"&") {
        return reference(s);
    }
    text(s)
}

// The piece that stands at this place of the content.
pub fn piece_at(content: &[u8], at: usize) -> Cut
    requires { at < length content.now }
    ensures { Stands content.now at result }
{
    let c = piece(&content[at..]);
    let kind = c.kind;
    Cut {
        kind,
        name: at + c.name,
        behind: at + c.behind,
        end: at + c.end,
        solid: at + c.solid,
        code: c.code,
        short: c.short,
        refers: c.refers,
    }
}
