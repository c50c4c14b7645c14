// Writing the triples of a store as canonical RDF 1.1 N-Triples, REFERENCE 3.7, for all inputs.
#![tactic(auto)]

mod values; // values.rt: what writing answers
mod terms; // terms.rt: the terms of a dictionary that is not broken
mod rows; // rows.rt: the rows of a store

ghost use Rattle.std.specs.Prelude.{◌≡◌, T};
ghost use Rattle.dictionary_layout.specs.Dictionary.{valid};
ghost use Rattle.dictionary_layout.specs.Values.{contents};
ghost use Rattle.ntriples_canonical.specs.Calls.{lengths_hold, written_on, write_gives};
ghost use Rattle.driver_write.specs.Values.{write_left};
ghost use Rattle.driver_write.specs.Lines.{all_lines, KnownRows};

use crate::rows::{all_known, measure, put_lines};
use crate::terms::term_lengths;
use common::{ENTRY_LIMIT, Refusal, STORE_LIMIT, STORE_WIDTH, TERM_LIMIT};
use dictionary_index::{Counters, is_valid};
use dictionary_layout::bytes::clear_bytes;
pub use values::WriteNext;

// Whether a store of a length has whole rows, no more than a store may have, and as many as are counted.
fn holds(len: usize, count: u32) -> bool
    ensures { result ≡ lengths_hold len count }
{
    len % STORE_WIDTH == 0
        && len <= STORE_WIDTH * STORE_LIMIT
        && count as usize <= len / STORE_WIDTH
}

// The text of all rows, where the dictionary is not broken and the ids are known: its length is known before a byte is written.
fn write_rows(
    table: &[u32],
    arena: &[u8],
    counters: Counters,
    store: &[u32],
    page: &mut [u8],
) -> Result<WriteNext, Refusal>
    requires { T (valid (contents table.now arena.now counters))
        × KnownRows (contents table.now arena.now counters) store.now }
    ensures { write_left result page.new
        ≡ written_on page.old (all_lines (contents table.now arena.now counters) store.now) }
{
    let mut lengths = [0u32; ENTRY_LIMIT];
    let mut chars = [0u32; TERM_LIMIT];
    term_lengths(table, arena, counters, &mut lengths, &mut chars);
    let all = measure(table, arena, counters, &lengths, store);
    if page.len() < all.used {
        clear_bytes(page);
        return Err(Refusal::PageFull);
    }
    let end = put_lines(table, arena, counters, &lengths, store, &mut *page);
    clear_bytes(&mut page[end..]);
    Ok(all)
}

// Writes the triples of the first `count` rows, or refuses.
pub fn write(
    table: &[u32],
    arena: &[u8],
    counters: Counters,
    store: &[u32],
    count: u32,
    page: &mut [u8],
) -> Result<WriteNext, Refusal>
    ensures { write_left result page.new
        ≡ write_gives (contents table.now arena.now counters) store.now count page.old }
{
    if !is_valid(table, arena, counters) {
        return Err(Refusal::BrokenDictionary);
    }
    if !holds(store.len(), count) {
        return Err(Refusal::IllSizedStore);
    }
    let n = STORE_WIDTH * (count as usize);
    if !all_known(&store[..n], counters.terms) {
        return Err(Refusal::UnknownTerm);
    }
    write_rows(table, arena, counters, &store[..n], page)
}
