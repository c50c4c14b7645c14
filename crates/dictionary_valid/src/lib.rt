// The test for a broken dictionary. It goes over the table and the arena once: the entries are scanned from the first, as if each term
// were put again, and a hash of the terms tells whether one came before.
#![tactic(auto)]

ghost use Rattle.std.specs.Prelude.{◌≡◌, ◌+◌, ◌≤◌, IsTrue, ◌↔◌, length, replicate};
ghost use Rattle.common.specs.Sizes.{heads_width};
ghost use Rattle.dictionary_layout.specs.Layout.{entry_at};
ghost use Rattle.dictionary_layout.specs.Dictionary.{valid};
ghost use Rattle.dictionary_layout.specs.Values.{contents};
ghost use Rattle.dictionary_hash.specs.Hashing.{term_hash_length};
ghost use Rattle.dictionary_valid.specs.Scanning.{Scanned, Scanning, CheckedNext, Follows, CheckedAll, Scannable, FreshStart, Begins};

use common::{ENTRY_WIDTH, HEADS_WIDTH, TERM_LIMIT};
use dictionary_entries::initial::{enter_all, start_refusal};
use dictionary_hash::{TERM_HASH_LENGTH, find_entry, hash_entries, hash_entry};
use dictionary_layout::bytes::all_are;
use dictionary_layout::hash::digest;
use dictionary_layout::{Counters, START_BYTES, START_COUNT, START_TABLE};

// Whether the numbers of entry k are those of a term whose bytes begin at a place of the arena.
fn entry_follows(table: &[u32], arena: &[u8], k: usize, at: usize) -> bool
    requires { (entry_at (k + 1) ≤ length table.now) × (at ≤ length arena.now) }
    ensures { IsTrue result ↔ Follows table.now arena.now k at }
{
    let entry = HEADS_WIDTH + ENTRY_WIDTH * k;
    let len = table[entry + 1] as usize;
    let kind = table[entry + 2];
    table[entry] as usize == at
        && len <= TERM_LIMIT
        && len <= arena.len() - at
        && 1 <= kind
        && kind <= 3
}

// Where the bytes of entry k end, if it is as a put leaves it behind the others; it is then entered in the heads and in the hash.
fn check_entry(
    table: &[u32],
    arena: &[u8],
    heads: &mut [u32],
    hash: &mut [u32],
    k: usize,
    at: usize,
) -> Option<usize>
    requires { Scanning table.now arena.now heads.old hash.old k at × (heads_width ≤ length heads.old) }
    ensures { CheckedNext table.now arena.now heads.new hash.new k result }
{
    if !entry_follows(table, arena, k, at) {
        return None;
    }
    let entry = HEADS_WIDTH + ENTRY_WIDTH * k;
    let kind = table[entry + 2];
    let end = at + table[entry + 1] as usize;
    let bytes = &arena[at..end];
    let d = digest(kind, bytes);
    if table[entry + 3] != heads[d.chain] {
        return None;
    }
    if let Some(_) = find_entry(table, arena, hash, k, kind, bytes, d.bucket) {
        return None;
    }
    heads[d.chain] = k as u32;
    hash_entry(hash, d.bucket, k);
    Some(end)
}

// Where the bytes of the last entry end, if all behind the start's are as puts leave them.
fn scan(
    table: &[u32],
    arena: &[u8],
    heads: &mut [u32],
    hash: &mut [u32],
    terms: usize,
) -> Option<usize>
    requires { Scannable table.now arena.now heads.old hash.old terms }
    ensures { CheckedAll table.now arena.now heads.new terms result }
{
    let mut at = START_BYTES;
    for k in START_COUNT..terms {
        at = check_entry(table, arena, heads, hash, k, at)?;
    }
    Some(at)
}

// Whether the table and the arena begin with the entries and the bytes of a fresh dictionary.
fn begins_fresh(table: &[u32], arena: &[u8], fresh: &[u32], iris: &[u8]) -> bool
    requires { FreshStart table.now arena.now fresh.now iris.now }
    ensures { Begins table.now arena.now fresh.now result }
{
    &table[HEADS_WIDTH..START_TABLE] == &fresh[HEADS_WIDTH..START_TABLE]
        && &arena[..START_BYTES] == iris
}

// Whether the counters, the heads and the unused parts are those of the entries scanned.
fn ends_so(table: &[u32], arena: &[u8], counters: Counters, heads: &[u32], used: usize) -> bool
    requires { Scanned table.now arena.now heads.now counters.terms used × (heads_width ≤ length heads.now) }
    ensures { result ≡ valid (contents table.now arena.now counters) }
{
    let rest = HEADS_WIDTH + ENTRY_WIDTH * (counters.terms as usize);
    used == counters.used as usize
        && &table[..HEADS_WIDTH] == &heads[..HEADS_WIDTH]
        && all_are(&table[rest..], 0)
        && all_are(&arena[used..], 0)
}

// The test, with a hash of zeros.
fn is_valid_by(table: &[u32], arena: &[u8], counters: Counters, hash: &mut [u32]) -> bool
    requires { (length hash.old ≡ term_hash_length) × (hash.old ≡ replicate term_hash_length 0) }
    ensures { result ≡ valid (contents table.now arena.now counters) }
{
    let terms = counters.terms as usize;
    if start_refusal(table.len(), arena.len()).is_err() {
        return false;
    }
    if terms < START_COUNT || table.len() < HEADS_WIDTH + ENTRY_WIDTH * terms {
        return false;
    }
    let mut heads = [0u32; START_TABLE];
    let mut iris = [0u8; START_BYTES];
    enter_all(&mut heads, &mut iris);
    if !begins_fresh(table, arena, &heads, &iris) {
        return false;
    }
    hash_entries(table, arena, hash, START_COUNT);
    match scan(table, arena, &mut heads, hash, terms) {
        Some(used) => ends_so(table, arena, counters, &heads, used),
        None => false,
    }
}

// Whether a sequence of puts after a start leaves these contents.
pub fn is_valid(table: &[u32], arena: &[u8], counters: Counters) -> bool
    ensures { result ≡ valid (contents table.now arena.now counters) }
{
    let mut hash = [0u32; TERM_HASH_LENGTH];
    is_valid_by(table, arena, counters, &mut hash)
}
