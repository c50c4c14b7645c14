// How many numbers the calls are passed at most for a buffer of bytes; for a table it is TABLE_LIMIT.
use common::{
    ENTRY_LIMIT, FINDING_LIMIT, FINDING_WIDTH, LOAD_LIMIT, LOAD_WIDTH, RUN_TERMS, STORE_LIMIT,
    STORE_WIDTH, WORK_WIDTH,
};

// The numbers of the longest load, store and findings.
pub const LOAD: usize = LOAD_WIDTH * LOAD_LIMIT;

pub const STORE: usize = STORE_WIDTH * STORE_LIMIT;

pub const FINDINGS: usize = FINDING_WIDTH * FINDING_LIMIT;

// No run needs more of the list work buffer: numbers for each term of a full dictionary and for each that a run puts.
pub const WORK: usize = WORK_WIDTH * (ENTRY_LIMIT + RUN_TERMS);

// A load that is too long is passed on as one that is one triple too long and leaves the same remainder, so that it is refused with the
// same number: so many numbers, and as many more as the remainder says.
pub const LONGER_LOAD: usize = LOAD + LOAD_WIDTH;

pub const LOAD_ARRAY: usize = LONGER_LOAD + LOAD_WIDTH - 1;

// A read fills no more than the longest load, and one that is longer is passed on as one that leaves the same remainder.
pub const FULL_ARRAY: usize = LOAD + LOAD_WIDTH - 1;
