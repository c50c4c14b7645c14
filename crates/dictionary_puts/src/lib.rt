// Many puts after one test for a broken dictionary: an index over its terms, puts that find their term by it, and terms taken back.
#![tactic(auto)]

ghost use Rattle.std.specs.Prelude.{◌≡◌, ◌-◌, ◌≤◌, ◌<◌, T, replicate};
ghost use Rattle.dictionary_layout.specs.Terms.{term, start_count};
ghost use Rattle.dictionary_layout.specs.Dictionary.{valid};
ghost use Rattle.dictionary_layout.specs.Calls.{put_gives};
ghost use Rattle.dictionary_layout.specs.Values.{contents};
ghost use Rattle.dictionary_hash.specs.Hashing.{term_hash_length};
ghost use Rattle.dictionary_index.specs.Values.{put_left, counters_left};
ghost use Rattle.dictionary_puts.specs.Indexed.{Indexed, retracted};

use common::{ENTRY_WIDTH, HEADS_WIDTH, Refusal};
use dictionary_entries::append::write_entry;
use dictionary_hash::{find_entry, hash_entries, hash_entry};
use dictionary_index::{PutNext, put_found, put_refusal};
use dictionary_layout::Counters;
use dictionary_layout::hash::digest;

// Enters all terms in an empty index.
pub fn index_terms(table: &[u32], arena: &[u8], counters: Counters, hash: &mut [u32])
    requires { T (valid (contents table.now arena.now counters)) × (hash.old ≡ replicate term_hash_length 0) }
    ensures { Indexed (contents table.now arena.now counters) hash.new }
{
    hash_entries(table, arena, hash, counters.terms as usize);
}

// Put, with the term found by the index, which then has the terms held afterwards.
pub fn put_indexed(
    table: &mut [u32],
    arena: &mut [u8],
    counters: Counters,
    hash: &mut [u32],
    kind: u32,
    bytes: &[u8],
) -> Result<PutNext, Refusal>
    requires { Indexed (contents table.old arena.old counters) hash.old }
    ensures arena_after { put_left counters result table.new arena.new
        ≡ put_gives (contents table.old arena.old counters) (term kind bytes.now) }
    ensures indexed { Indexed (contents table.new arena.new (counters_left counters result)) hash.new }
{
    put_refusal(kind, bytes)?;
    let d = digest(kind, bytes);
    let terms = counters.terms as usize;
    let found = find_entry(table, arena, hash, terms, kind, bytes, d.bucket);
    let next = put_found(table, arena, counters, kind, bytes, d.chain, found)?;
    if counters.terms < next.counters.terms {
        hash_entry(hash, d.bucket, terms);
    }
    Ok(next)
}

// Takes the last term back: its chain's head is the entry before, and its entry and its bytes are zero.
fn retract_last(table: &mut [u32], arena: &mut [u8], counters: Counters) -> Counters
    requires { T (valid (contents table.old arena.old counters)) × (start_count < counters.terms) }
    ensures { contents table.new arena.new result
        ≡ retracted (contents table.old arena.old counters) (counters.terms - 1) }
{
    let terms = counters.terms - 1;
    let entry = HEADS_WIDTH + ENTRY_WIDTH * (terms as usize);
    let used = table[entry];
    let start = used as usize;
    let end = start + table[entry + 1] as usize;
    let chain = digest(table[entry + 2], &arena[start..end]).chain;
    table[chain] = table[entry + 3];
    write_entry(table, terms as usize, 0, 0, 0, 0);
    arena[start..end].fill(0);
    Counters { terms, used }
}

// Takes terms back from the last, so that the first ones are left, as many as given.
pub fn retract(table: &mut [u32], arena: &mut [u8], counters: Counters, terms: u32) -> Counters
    requires { T (valid (contents table.old arena.old counters)) × (start_count ≤ terms) × (terms ≤ counters.terms) }
    ensures { contents table.new arena.new result
        ≡ retracted (contents table.old arena.old counters) terms }
{
    let mut left = counters;
    while terms < left.terms {
        left = retract_last(table, arena, left);
    }
    left
}
