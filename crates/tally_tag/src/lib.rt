// No code: the numbers of a tag and what is known of the walk, as types, with their definitions and the laws of a tag's numbers.
#![tactic(auto)]

use extent::Extent;

// The numbers that a tag gives, each in its range, or what stands for one that is missing.
#[derive(Clone, Copy)]
pub struct Numbers {
    pub offset: i64,
    pub size: u64,
    pub replication: u64,
    pub origin: u64,
    pub space: u64,
}

// What is known at one level: the extent of its data elements so far, and of the whole text the records, the variables of the segments that
// have ended, at most 1,000,001, and the place of the first segment whose address leaves 0 to 2^32. Level 0 is the text, 1 the root, 2 a segment or
// a group; in anything else, 3, nothing is described.
#[derive(Clone, Copy)]
pub struct Tally {
    pub extent: Extent,
    pub level: u8,
    pub records: usize,
    pub total: u64,
    pub leaves: Option<usize>,
}
