// Entries: compared with a term, found by their chain, located in the arena.
ghost use Rattle.std.specs.Prelude.{◌≡◌};
ghost use Rattle.dictionary_layout.specs.Terms.{term};
ghost use Rattle.dictionary_layout.specs.Layout.{decode};
ghost use Rattle.dictionary_layout.specs.Dictionary.{same_term, place_of};
ghost use Rattle.dictionary_entries.specs.Entries.{entry_term, EntryFits, id_found, Chained};
ghost use Rattle.dictionary_layout.specs.Values.{contents};

use common::{ENTRY_WIDTH, HEADS_WIDTH, Id};
use dictionary_layout::Counters;

// Whether the entry of the id names the term.
pub fn names(table: &[u32], arena: &[u8], id: usize, kind: u32, bytes: &[u8]) -> bool
    requires { EntryFits table.now arena.now id }
    ensures { result ≡ same_term (entry_term table.now arena.now id) (term kind bytes.now) }
{
    let at = HEADS_WIDTH + ENTRY_WIDTH * id;
    if table[at + 2] != kind {
        return false;
    }
    let start = table[at] as usize;
    let end = start + table[at + 1] as usize;
    &arena[start..end] == bytes
}

// The id of the term, whose chain is given, where it is held.
pub fn find_term(
    table: &[u32],
    arena: &[u8],
    counters: Counters,
    kind: u32,
    bytes: &[u8],
    chain: usize,
) -> Option<Id>
    requires { Chained (contents table.now arena.now counters) (term kind bytes.now) chain }
    ensures { id_found result
        ≡ place_of (term kind bytes.now) (decode (contents table.now arena.now counters)) }
{
    let mut id = table[chain];
    while id != 0 {
        let at = id as usize;
        if names(table, arena, at, kind, bytes) {
            return Some(Id(id));
        }
        id = table[HEADS_WIDTH + ENTRY_WIDTH * at + 3];
    }
    if names(table, arena, 0, kind, bytes) {
        Some(Id(0))
    } else {
        None
    }
}
