// The terms of a dictionary and where they lie: what put, lookup and the test for a broken dictionary share.
#![tactic(auto)]

pub mod bytes; // bytes.rt: rows of bytes and of numbers
pub mod hash; // hash.rt: a term's chain and bucket
pub mod values; // values.rt: the counters, what a term is found by, and the sizes of a started dictionary

pub use values::{BUCKET_COUNT, Counters, Digest, START_BYTES, START_COUNT, START_TABLE};
