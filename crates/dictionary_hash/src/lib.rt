// A hash over the entries of a dictionary, their terms by buckets: entered, and searched for the entry that names a term.
#![tactic(auto)]

ghost use Rattle.std.specs.Prelude.{◌≡◌, ◌<◌, length};
ghost use Rattle.dictionary_layout.specs.Terms.{term};
ghost use Rattle.dictionary_layout.specs.Digest.{bucket_count};
ghost use Rattle.dictionary_hash.specs.Hashing.{term_hash_length, Hashed, linked, FindsEntry, Seekable, Hashable};

use common::{ENTRY_WIDTH, HEADS_WIDTH, Id};
use dictionary_entries::entry::names;
use dictionary_layout::BUCKET_COUNT;
use dictionary_layout::hash::digest;

// The length of the hash: a head for each bucket, and a link for each entry.
pub const TERM_HASH_LENGTH: usize = BUCKET_COUNT + BUCKET_COUNT;

// The id of an entry among the first k that names the term, whose bucket is given, where there is one.
pub fn find_entry(
    table: &[u32],
    arena: &[u8],
    hash: &[u32],
    k: usize,
    kind: u32,
    bytes: &[u8],
    bucket: usize,
) -> Option<Id>
    requires { Seekable table.now arena.now hash.now k (term kind bytes.now) bucket }
    ensures { FindsEntry table.now arena.now k (term kind bytes.now) result }
{
    let mut cur = hash[bucket];
    while cur != 0 {
        let at = cur as usize - 1;
        if names(table, arena, at, kind, bytes) {
            return Some(Id(cur - 1));
        }
        cur = hash[BUCKET_COUNT + at];
    }
    None
}

// Enters entry k in the hash: it becomes the first of its bucket.
pub fn hash_entry(hash: &mut [u32], bucket: usize, k: usize)
    requires { (length hash.old ≡ term_hash_length) × (bucket < bucket_count) × (k < bucket_count) }
    ensures { hash.new ≡ linked hash.old bucket k }
{
    let first = hash[bucket];
    hash[BUCKET_COUNT + k] = first;
    hash[bucket] = (k + 1) as u32;
}

// Enters the first n entries in an empty hash.
pub fn hash_entries(table: &[u32], arena: &[u8], hash: &mut [u32], n: usize)
    requires { Hashable table.now arena.now hash.old n }
    ensures { Hashed table.now arena.now hash.new n }
{
    for k in 0..n {
        let entry = HEADS_WIDTH + ENTRY_WIDTH * k;
        let start = table[entry] as usize;
        let end = start + table[entry + 1] as usize;
        let bucket = digest(table[entry + 2], &arena[start..end]).bucket;
        hash_entry(hash, bucket, k);
    }
}
