// The children of an element, by place: the next one, the place behind one, and the content of one by its name. A place stands for what is still to
// come at its level, up to the end tag that closes the level.
// The text and a place stay two parameters: `Part` and the tables keep places without the text, so each call would build the pair first.
#![tactic(auto)]

ghost use Rattle.std.specs.Prelude.{◌≡◌, ◌≤◌, ◌-◌, length};
ghost use Rattle.std.specs.Iterator.{at_most};
ghost use Rattle.pieces_cuts.specs.Cuts.{Stands};
ghost use Rattle.pieces_cuts.specs.declared.Kind.TheVariants.{Start};
ghost use Rattle.cdi.specs.Lists.{same as same_bytes};
ghost use Rattle.levels.specs.Ahead.{name_in};
ghost use Rattle.children.specs.Siblings.{ahead, InLevel, turn_of, Behind, NextChild, Passed, part_of, Named};

use pieces::piece_at;
use pieces_cuts::{Cut, Kind};
use scan::same;

// What a piece does to the depth.
#[derive(Clone, Copy)]
pub enum Turn {
    Opens,
    Closes,
    Stays,
}

// A piece with its place; a child's is its start tag.
#[derive(Clone, Copy)]
pub struct Placed {
    pub place: usize,
    pub cut: Cut,
}

// The pieces of a content from a place on.
#[derive(Drop)]
pub struct Pieces<'a> {
    pub content: &'a [u8],
    pub at: usize,
}

impl<'a> Iterator for Pieces<'a> {
    ghost use Rattle.children.specs.Walk.{Gives};

    type Item = Placed;

    ghost next_gives = { Gives };

    ghost remaining = { λ p. at_most (length p.content.now - p.at) };

    fn next(&mut self) -> Option<Placed> {
        let place = self.at;
        if place < self.content.len() {
            let cut = piece_at(self.content, place);
            self.at = cut.end;
            return Some(Placed { place, cut });
        }
        None
    }
}

// The content of an element: none, since there is no such element; empty, by the short form; or from a place on.
#[derive(Clone, Copy)]
pub enum Part {
    Missing,
    Empty,
    From(usize),
}

#[tactic(auto, unfolding(crate::specs::Siblings::turn_of))]
fn turn_of(kind: Kind, short: bool) -> Turn
    ensures { result ≡ turn_of kind short }
{
    match kind {
        Kind::Start if !short => Turn::Opens,
        Kind::Finish => Turn::Closes,
        _ => Turn::Stays,
    }
}

// The place behind the end tag that closes the level of this place.
pub fn behind(s: &[u8], at: usize) -> usize
    requires { InLevel s.now at }
    ensures { Behind s.now at result }
{
    let mut depth: usize = 0;
    for piece in (Pieces { content: s, at }) {
        match turn_of(piece.cut.kind, piece.cut.short) {
            Turn::Opens => depth += 1,
            Turn::Closes if depth == 0 => return piece.cut.end,
            Turn::Closes => depth -= 1,
            Turn::Stays => {}
        }
    }
    s.len()
}

// The place behind the element whose start tag stands at this place.
pub fn after(s: &[u8], child: Placed) -> usize
    requires { (Stands s.now child.place child.cut) × (child.cut.kind ≡ Start) × (2 ≤ length (ahead s.now child.place)) }
    ensures { Passed s.now child.place child.cut result }
{
    if child.cut.short {
        child.cut.end
    } else {
        behind(s, child.cut.end)
    }
}

// The next child at the level of this place.
pub fn next_child(s: &[u8], at: usize) -> Option<Placed>
    requires { InLevel s.now at }
    ensures { NextChild s.now at result }
{
    for piece in (Pieces { content: s, at }) {
        match piece.cut.kind {
            Kind::Start => return Some(piece),
            Kind::Finish => return None,
            _ => {}
        }
    }
    None
}

// Has the tag this name?
pub fn is_named(s: &[u8], child: Placed, name: &[u8]) -> bool
    requires { Stands s.now child.place child.cut }
    ensures { result ≡ same_bytes name.now (name_in s.now child.cut) }
{
    same(name, &s[child.cut.name..child.cut.behind])
}

// The content of the element with this start tag.
#[tactic(auto, unfolding(crate::specs::Siblings::part_of))]
pub fn part_of(tag: Cut) -> Part
    ensures { result ≡ part_of tag }
{
    if tag.short {
        Part::Empty
    } else {
        Part::From(tag.end)
    }
}

// The content of the first child of this name at the level of this place.
pub fn content_of(s: &[u8], at: usize, name: &[u8]) -> Part
    requires { InLevel s.now at }
    ensures { Named s.now at name.now result }
{
    let mut i = at;
    while let Some(child) = next_child(s, i) {
        if is_named(s, child, name) {
            return part_of(child.cut);
        }
        i = after(s, child);
    }
    Part::Missing
}
