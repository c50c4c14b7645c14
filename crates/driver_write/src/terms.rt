// The terms of a dictionary that is not broken: how long their texts are, and the text of one.
ghost use Rattle.std.specs.Prelude.{◌≡◌, ◌≤◌, ◌<◌, T, length};
ghost use Rattle.common.specs.Sizes.{term_limit};
ghost use Rattle.dictionary_layout.specs.Layout.{decode};
ghost use Rattle.dictionary_layout.specs.Dictionary.{term_of, valid};
ghost use Rattle.dictionary_layout.specs.Values.{contents};
ghost use Rattle.ntriples_utf8.specs.Promises.{Wrote};
ghost use Rattle.ntriples_canonical.specs.Writing.{term_text};
ghost use Rattle.ntriples_text.specs.Promises.{or_nothing, text_size, TextFits};
ghost use Rattle.driver_write.specs.Lines.{Measured, Roomed};

use common::{ENTRY_WIDTH, HEADS_WIDTH, Id};
use dictionary_index::Counters;
use ntriples_text::{put_text, text_length};

// The kind of an id's term.
pub fn kind_of(table: &[u32], arena: &[u8], counters: Counters, id: Id) -> u32
    requires { T (valid (contents table.now arena.now counters)) × (id.0 < counters.terms) }
    ensures { result ≡ (term_of (decode (contents table.now arena.now counters)) id.0).kind }
{
    table[HEADS_WIDTH + ENTRY_WIDTH * (id.0 as usize) + 2]
}

// How long the text of an id's term is, none where it has none.
fn term_length(
    table: &[u32],
    arena: &[u8],
    counters: Counters,
    id: usize,
    chars: &mut [u32],
) -> Option<usize>
    requires { T (valid (contents table.now arena.now counters)) × (id < counters.terms) × (term_limit ≤ length chars.old) }
    ensures { result ≡ text_size (term_text (term_of (decode (contents table.now arena.now counters)) id)) }
{
    let at = HEADS_WIDTH + ENTRY_WIDTH * id;
    let start = table[at] as usize;
    let end = start + table[at + 1] as usize;
    text_length(table[at + 2], &arena[start..end], chars)
}

// Writes how long the texts of all terms are; 0 for a term that has none, for the lengths are numbers in fixed memory.
pub fn term_lengths(
    table: &[u32],
    arena: &[u8],
    counters: Counters,
    lengths: &mut [u32],
    chars: &mut [u32],
)
    requires { Roomed (contents table.now arena.now counters) lengths.old chars.old }
    ensures { Measured (decode (contents table.now arena.now counters)) counters.terms
        lengths.new }
{
    for i in 0..counters.terms as usize {
        let length = term_length(table, arena, counters, i, &mut *chars);
        lengths[i] = length.unwrap_or(0) as u32;
    }
}

// Writes the text of an id's term from place `at` on, and answers the place after it.
pub fn put_term(
    table: &[u32],
    arena: &[u8],
    counters: Counters,
    id: Id,
    page: &mut [u8],
    at: usize,
) -> usize
    requires { T (valid (contents table.now arena.now counters)) × (id.0 < counters.terms)
        × TextFits (term_text (term_of (decode (contents table.now arena.now counters)) id.0)) at page.old }
    ensures { Wrote page.old at
        (or_nothing (term_text (term_of (decode (contents table.now arena.now counters)) id.0)))
        page.new result }
{
    let e = HEADS_WIDTH + ENTRY_WIDTH * (id.0 as usize);
    let start = table[e] as usize;
    let end = start + table[e + 1] as usize;
    put_text(table[e + 2], &arena[start..end], page, at)
}
