// Terms of document 01 that several crates need, each once in the code; in the definitions the limits stand in `Limits` of `cdi`. No functions.
#![tactic(auto)]

// "the 22 bytes `<?xml version="1.0"?>` and newline": where the pieces begin.
pub const FIRST_LINE: usize = 22;

// "no zero byte at 65,535 or earlier": the zero that ends the content stands before this place.
pub const TEXT_LIMIT: usize = 65536;

// "At most depth 24 and 4,096 elements."
pub const DEEPEST: usize = 24;

pub const MOST_ELEMENTS: usize = 4096;

// "at most 1,000,000" variables.
pub const MOST_VARIABLES: u64 = 1000000;

// "the address must lie from 0 to 2^32"
pub const LAST_ADDRESS: u64 = 0x1_0000_0000;

// "space 0 to 255", as `fixed` and `var`; a string's "size 1 to 65,535".
pub const MOST_SPACE: u64 = 255;

pub const MOST_TEXT: u64 = 65535;

// "origin 0 to 2,147,483,647", "replication 1 to 2,147,483,647", and how far up and down an offset of 32 bits goes.
pub const MOST_SIGNED: u64 = 0x7FFF_FFFF;

pub const MOST_DOWN: u64 = 0x8000_0000;

// "The table holds eight signed 64-bit numbers per record"
pub const FIELDS: usize = 8;

// "kind (1 segment, 2 group, 3 int, 4 string, 5 eventid, 6 float)"
pub const SEGMENT: u64 = 1;

pub const GROUP: u64 = 2;

pub const INT: u64 = 3;

pub const STRING: u64 = 4;

pub const EVENTID: u64 = 5;

pub const FLOAT: u64 = 6;

// "An integer comes in as a sign and a 64-bit magnitude"
#[derive(Clone, Copy)]
pub struct Whole {
    pub negative: bool,
    pub magnitude: u64,
}
