// The counters that the calls take and leave, what a term is found by, and the sizes of a started dictionary.
use common::{ENTRY_WIDTH, HEADS_WIDTH};

// How many terms a start puts, how many bytes they have, and the length of a table that has room for no more.
pub const START_COUNT: usize = 31;

pub const START_BYTES: usize = 1325;

pub const START_TABLE: usize = HEADS_WIDTH + ENTRY_WIDTH * START_COUNT;

// How many buckets the hash of the terms has.
pub const BUCKET_COUNT: usize = 65536;

// How many terms there are, and how many arena bytes they use.
#[derive(Clone, Copy)]
pub struct Counters {
    pub terms: u32,
    pub used: u32,
}

// A term's chain, and its bucket in the hash of the terms.
#[derive(Clone, Copy)]
pub struct Digest {
    pub chain: usize,
    pub bucket: usize,
}
