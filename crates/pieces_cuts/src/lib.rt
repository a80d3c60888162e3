// What a piece of the content is, by its kind and its places.
#![tactic(auto)]

pub mod cuts; // cuts without name and text
pub mod names; // where a name ends
pub mod places; // where an attribute stands

// What a piece is; a remark is a comment or an instruction.
#[derive(Clone, Copy)]
pub enum Kind {
    Start,
    Finish,
    Remark,
    Refer,
    Text,
    Malformed,
    Unsupported,
}

// A piece: a tag's name stands from `name` to before `behind`, and `end` is behind the piece. `solid` is where a run of text has its first
// byte that isn't blank, or its end; `code` is the character that a reference is to; `short` tells `/>`, and `refers` that an attribute's
// value has `&`. What a kind hasn't is the piece's own place, 0 or false. Behind a malformed or unsupported piece nothing is read, so its
// end is that of the content.
#[derive(Clone, Copy)]
pub struct Cut {
    pub kind: Kind,
    pub name: usize,
    pub behind: usize,
    pub end: usize,
    pub solid: usize,
    pub code: u32,
    pub short: bool,
    pub refers: bool,
}
