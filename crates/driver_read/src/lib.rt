// Reading a file of RDF 1.1 N-Triples, REFERENCE 3.5: its terms into the dictionary, its triples into the load, for all inputs.
#![tactic(auto)]

mod values; // values.rt: what reading a file answers, and what a line's terms come to
mod triple; // triple.rt: a line's triple
mod lines; // lines.rt: the lines one after the other

ghost use Rattle.std.specs.Prelude.{◌≡◌, ◌%◌, T, length};
ghost use Rattle.common.specs.Sizes.{load_width};
ghost use Rattle.dictionary_layout.specs.Dictionary.{valid};
ghost use Rattle.dictionary_layout.specs.Values.{contents};
ghost use Rattle.ntriples.specs.Reading.{read_gives};
ghost use Rattle.driver_read.specs.Values.{read_left};

use crate::lines::read_lines;
use crate::values::read_next;
use common::{LOAD_WIDTH, clear_from};
use dictionary_hash::TERM_HASH_LENGTH;
use dictionary_index::{Counters, is_valid};
use dictionary_puts::{index_terms, retract};
use ntriples_lines::{LINE_LIMIT, OUT_LENGTH};
pub use values::ReadNext;

// A read whose dictionary is not broken and whose load has whole triples: at the first line that fails the new terms are taken back, the
// last first, and the load is cleared.
fn read_valid(
    table: &mut [u32],
    arena: &mut [u8],
    counters: Counters,
    file: &[u8],
    load: &mut [u32],
) -> ReadNext
    requires { T (valid (contents table.old arena.old counters)) × (length load.old % load_width ≡ 0) }
    ensures { read_left result table.new arena.new load.new
        ≡ read_gives (contents table.old arena.old counters) load.old file.now }
{
    let mut hash = [0u32; TERM_HASH_LENGTH];
    let mut chars = [0u32; LINE_LIMIT];
    let mut out = [0u8; OUT_LENGTH];
    clear_from(&mut *load, 0);
    index_terms(&*table, &*arena, counters, &mut hash);
    let first = read_next(0, 0, counters);
    let next = read_lines(
        &mut *table,
        &mut *arena,
        &mut hash,
        &mut *load,
        first,
        file,
        &mut chars,
        &mut out,
    );
    if next.number == 0 {
        return next;
    }
    let c = next.counters;
    let left = retract(&mut *table, &mut *arena, c, counters.terms);
    clear_from(&mut *load, 0);
    read_next(next.number, 0, left)
}

// Reads a whole file, or refuses it at its first failing line with nothing left behind.
pub fn read(
    table: &mut [u32],
    arena: &mut [u8],
    counters: Counters,
    file: &[u8],
    load: &mut [u32],
) -> ReadNext
    ensures { read_left result table.new arena.new load.new
        ≡ read_gives (contents table.old arena.old counters) load.old file.now }
{
    if !is_valid(&*table, &*arena, counters) {
        return read_next(1, 0, counters);
    }
    if load.len() % LOAD_WIDTH != 0 {
        return read_next(2, 0, counters);
    }
    read_valid(table, arena, counters, file, load)
}
