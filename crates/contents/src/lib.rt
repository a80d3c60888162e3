// What the text says of one element in its own content: one run of text and the number that it is, or text with its references decoded. A place stands
// for what is still to come at its level.
#![tactic(auto)]

ghost use Rattle.std.specs.Prelude.{◌≡◌, ◌≤◌, length};
ghost use Rattle.cdi.specs.Lists.{same as same_bytes};
ghost use Rattle.cdi.specs.Rules.{own_number};
ghost use Rattle.cdi.specs.Access.{decoded as decoded_text};
ghost use Rattle.pieces_characters.specs.Characters.{utf8_of};
ghost use Rattle.numbers.specs.Held.{number_of};
ghost use Rattle.levels.specs.Ahead.{here};
ghost use Rattle.children.specs.Siblings.{InLevel};
ghost use Rattle.contents.specs.Own.{role_of, is_end, Lies, Told, behind_of};

use children::{Pieces, Placed, after};
use numbers::{Signed, read_number};
use pieces_characters::utf8;
use pieces_cuts::Kind;
use scan::begins_at;

// What a piece is to a text: a run of it, a reference in it, a child, what is dropped, its end, or no piece at all.
#[derive(Clone, Copy)]
pub enum Role {
    Run,
    Character,
    Element,
    Dropped,
    End,
    Nothing,
}

// One run of text and nothing else, from a place to before another.
#[derive(Clone, Copy)]
pub struct Own {
    pub from: usize,
    pub to: usize,
}

#[tactic(auto, unfolding(crate::specs::Own::role_of))]
fn role_of(kind: Kind) -> Role
    ensures { result ≡ role_of kind }
{
    match kind {
        Kind::Start => Role::Element,
        Kind::Finish => Role::End,
        Kind::Remark => Role::Dropped,
        Kind::Refer => Role::Character,
        Kind::Text => Role::Run,
        Kind::Malformed | Kind::Unsupported => Role::Nothing,
    }
}

// Is nothing to come at the level of this place?
fn is_end(s: &[u8], at: usize) -> bool
    requires { InLevel s.now at }
    ensures { result ≡ is_end (here s.now at) }
{
    for piece in (Pieces { content: s, at }) {
        match role_of(piece.cut.kind) {
            Role::End => return true,
            Role::Nothing => {}
            _ => return false,
        }
    }
    true
}

// Where the one run of text stands that is to come at the level of this place, and nothing else.
pub fn own_place(s: &[u8], at: usize) -> Option<Own>
    requires { InLevel s.now at }
    ensures { Lies s.now at result }
{
    for Placed { place: from, cut } in (Pieces { content: s, at }) {
        match role_of(cut.kind) {
            Role::Run => {
                if is_end(s, cut.end) {
                    return Some(Own { from, to: cut.end });
                }
                return None;
            }
            Role::Nothing => {}
            _ => return None,
        }
    }
    None
}

// The one run of text that is to come at the level of this place, and nothing else.
pub fn own_text(s: &[u8], at: usize) -> Option<&[u8]>
    requires { InLevel s.now at }
    ensures { Told s.now at result }
{
    match own_place(s, at) {
        Some(own) => Some(&s[own.from..own.to]),
        None => None,
    }
}

// The number that the one run of text is.
pub fn own_number(s: &[u8], at: usize) -> Option<Signed>
    requires { InLevel s.now at }
    ensures { result ≡ number_of (own_number (here s.now at)) }
{
    read_number(own_text(s, at)?)
}

// Where the text is behind this word, if it goes on with it from its byte k.
fn behind_word(word: &[u8], text: &[u8], k: usize) -> Option<usize>
    requires { k ≤ length text.now }
    ensures { result ≡ behind_of word.now text.now k }
{
    if begins_at(text, k, word) {
        Some(k + word.len())
    } else {
        None
    }
}

// The same of a character's bytes.
fn behind_character(code: u32, text: &[u8], k: usize) -> Option<usize>
    requires { k ≤ length text.now }
    ensures { result ≡ behind_of (utf8_of code) text.now k }
{
    let encoding = utf8(code);
    behind_word(&encoding.bytes[..encoding.length], text, k)
}

// Is the text what is to come at the level of this place, with its references decoded, and its comments and instructions dropped?
pub fn is_decoded(s: &[u8], at: usize, text: &[u8]) -> bool
    requires { InLevel s.now at }
    ensures { result ≡ same_bytes text.now (decoded_text (here s.now at)) }
{
    let mut pieces = Pieces { content: s, at };
    let mut k: usize = 0;
    while let Some(piece) = pieces.next() {
        match role_of(piece.cut.kind) {
            Role::Run => {
                let Some(next) = behind_word(&s[piece.place..piece.cut.end], text, k) else {
                    return false;
                };
                k = next;
            }
            Role::Character => {
                let Some(next) = behind_character(piece.cut.code, text, k) else {
                    return false;
                };
                k = next;
            }
            Role::Element => pieces.at = after(s, piece),
            Role::Dropped | Role::Nothing => {}
            Role::End => return k == text.len(),
        }
    }
    false
}
