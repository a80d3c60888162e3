// Comments, instructions and runs of text. Each reader is handed the part of the content that starts with the piece.
#![tactic(auto)]

ghost use Rattle.std.specs.Prelude.{◌≡◌, true, ◌≤◌, ◌<◌, length, drop, get_or};
ghost use Rattle.cdi.specs.Pieces.{is_xml, is_text, or_malformed, comment as comment_of, instruction as instruction_of, run};
ghost use Rattle.pieces_cuts.specs.Places.{Beyond};
ghost use Rattle.pieces_cuts.specs.Cuts.{Cuts};

use pieces_characters::lower;
use pieces_cuts::cuts::{malformed, passed};
use pieces_cuts::names::name_end;
use pieces_cuts::{Cut, Kind};
use scan::{Class, begins_at, byte_at, is_blank, span};

// The place behind the first such word from this place on.
fn find(s: &[u8], at: usize, word: &[u8]) -> Option<usize>
    requires { (at ≤ length s.now) × (0 < length word.now) }
    ensures { Beyond word.now s.now at result }
{
    for i in at..s.len() {
        // Asked once for the whole word, so that the compiler needn't ask it for each byte.
        if s.len() - i < word.len() {
            return None;
        }
        if begins_at(s, i, word) {
            return Some(i + word.len());
        }
    }
    None
}

// A comment: s begins with its `<!--`.
pub fn comment(s: &[u8]) -> Cut
    requires { 4 ≤ length s.now }
    ensures { Cuts s.now 0 (or_malformed (comment_of (drop 4 s.now))) result }
{
    let Some(dashes) = find(s, 4, b"--") else {
        return malformed(s);
    };
    if begins_at(s, dashes, b">") {
        return passed(s, dashes + 1);
    }
    malformed(s)
}

// Is it `xml` in any case?
fn is_xml(s: &[u8]) -> bool
    ensures { result ≡ is_xml s.now }
{
    if s.len() != 3 {
        return false;
    }
    let a = lower(s[0]);
    let b = lower(s[1]);
    let c = lower(s[2]);
    a == b'x' && b == b'm' && c == b'l'
}

// An instruction: s begins with its `<?`.
pub fn instruction(s: &[u8]) -> Cut
    requires { 2 ≤ length s.now }
    ensures { Cuts s.now 0 (or_malformed (instruction_of (drop 2 s.now))) result }
{
    let behind = name_end(s, 2);
    if behind == 2 {
        return malformed(s);
    }
    if is_xml(&s[2..behind]) {
        return malformed(s);
    }
    let Some(end) = find(s, behind, b"?>") else {
        return malformed(s);
    };
    if begins_at(s, behind, b"?>") {
        return passed(s, end);
    }
    let b = byte_at(s, behind);
    if is_blank(b) {
        return passed(s, end);
    }
    malformed(s)
}

// A run of text.
pub fn text(s: &[u8]) -> Cut
    requires { (0 < length s.now) × (is_text (get_or s.now 0 0) ≡ true) }
    ensures { Cuts s.now 0 (or_malformed (run s.now)) result }
{
    let end = span(s, 0, Class::Text);
    if let Some(_) = find(&s[0..end], 0, b"]]>") {
        return malformed(s);
    }
    let solid = span(&s[0..end], 0, Class::Blank);
    Cut {
        kind: Kind::Text,
        name: 0,
        behind: 0,
        end,
        solid,
        code: 0,
        short: false,
        refers: false,
    }
}
