// The C entry points: start, put, lookup, run, open, pass, read and write over byte slices. Ids are little-endian. Each entry point owns
// the numbers that the calls on numbers work on, and lends them to one function, which knows them as slices only.
#![tactic(auto)]

mod dictionary; // dictionary.rt: start, put and lookup
mod read; // read.rt: read
mod run; // run.rt: run
mod sizes; // sizes.rt: how many numbers the calls are passed
mod turns; // turns.rt: open and pass
mod write; // write.rt: write

ghost use Rattle.std.specs.Prelude.{◌≡◌};
ghost use Rattle.dictionary_layout.specs.Terms.{term};
ghost use Rattle.dictionary_layout.specs.Layout.{dict};
ghost use Rattle.dictionary_layout.specs.Calls.{start_result, put_result};
ghost use Rattle.driver_refusals.specs.Lent.{lent};
ghost use Rattle.edge_c.specs.Calls.{read_dict, start_bytes_give, put_bytes_give, place_answer, Places, run_bytes_give};
ghost use Rattle.edge_c.specs.Calls.{run_result, turn_bytes_give, turn_result, read_result, read_bytes_give, write_bytes_give};
ghost use Rattle.driver_turns.specs.Turns.{open_past, pass_past};
ghost use Rattle.ntriples_canonical.specs.Calls.{write_answer};

use crate::dictionary::{lookup_in, put_in, start_in};
use crate::read::read_in;
use crate::run::run_in;
use crate::sizes::{FINDINGS, FULL_ARRAY, LOAD_ARRAY, STORE, WORK};
use crate::turns::turn_in;
use crate::write::write_in;
use common::TABLE_LIMIT;

// Starts a dictionary: refusal 4, 7 or 0. The counters are written.
#[unsafe(no_mangle)]
pub extern "C" fn tablestork_start(
    table: &mut [u8],
    arena: &mut [u8],
    terms: &mut u32,
    used: &mut u32,
) -> u32
    ensures { start_result result (dict table.new arena.new terms.new used.new)
        ≡ start_bytes_give table.old arena.old }
{
    let mut numbers = [0u32; TABLE_LIMIT];
    match start_in(&mut numbers, table, arena) {
        Ok(counters) => {
            *terms = counters.terms;
            *used = counters.used;
            0
        }
        Err(refusal) => {
            *terms = 0;
            *used = 0;
            refusal.number()
        }
    }
}

// Puts a term: refusal 1, 10, 11, 7 or 0. The id is written, and the counters change with the table and the arena.
#[unsafe(no_mangle)]
pub extern "C" fn tablestork_put(
    table: &mut [u8],
    arena: &mut [u8],
    terms: &mut u32,
    used: &mut u32,
    kind: u32,
    bytes: &[u8],
    id: &mut u32,
) -> u32
    ensures { put_result result id.new
        (dict table.new arena.new terms.new used.new)
        ≡ put_bytes_give (dict table.old arena.old terms.old used.old)
        (term kind bytes.now) }
{
    let mut numbers = [0u32; TABLE_LIMIT];
    match put_in(&mut numbers, table, arena, *terms, *used, kind, bytes) {
        Ok(next) => {
            *terms = next.counters.terms;
            *used = next.counters.used;
            *id = next.id.0;
            0
        }
        Err(refusal) => {
            *id = 0;
            refusal.number()
        }
    }
}

// Looks a term up: refusal 1, 12 or 0. The kind, and the place and the length of the term's bytes in the arena are written.
#[unsafe(no_mangle)]
pub extern "C" fn tablestork_lookup(
    table: &[u8],
    arena: &[u8],
    terms: u32,
    used: u32,
    id: u32,
    kind: &mut u32,
    begin: &mut u64,
    len: &mut u64,
) -> u32
    ensures { Places (read_dict (dict table.now arena.now terms used)) id
        (place_answer result kind.new begin.new len.new) }
{
    let mut numbers = [0u32; TABLE_LIMIT];
    let place = lookup_in(&mut numbers, table, arena, terms, used, id);
    *kind = place.kind;
    *begin = place.begin as u64;
    *len = place.len as u64;
    place.number
}

// Runs: refusal 1 to 9 or 0. The triple count and the five counts are written.
#[unsafe(no_mangle)]
pub extern "C" fn tablestork_run(
    table: &mut [u8],
    arena: &mut [u8],
    terms: &mut u32,
    used: &mut u32,
    load: &[u8],
    store: &mut [u8],
    findings: &mut [u8],
    work: &mut [u8],
    triples: &mut u32,
    counts: &mut [u32; 5],
) -> u32
    ensures { run_result result triples.new counts.new
        store.new findings.new work.new
        (dict table.new arena.new terms.new used.new)
        ≡ run_bytes_give (dict table.old arena.old terms.old used.old)
        (lent load.now store.old findings.old work.old) }
{
    let mut t = [0u32; TABLE_LIMIT];
    let mut l = [0u32; LOAD_ARRAY];
    let mut s = [0u32; STORE];
    let mut f = [0u32; FINDINGS];
    let mut w = [0u32; WORK];
    let next = run_in(
        &mut t, &mut l, &mut s, &mut f, &mut w, table, arena, *terms, *used, load, store, findings,
        work,
    );
    *terms = next.counters.terms;
    *used = next.counters.used;
    match next.answer {
        Ok(answer) => {
            *triples = answer.count;
            let five = answer.counts;
            *counts = five;
            0
        }
        Err(refusal) => {
            *triples = 0;
            *counts = [0; 5];
            refusal.number()
        }
    }
}

// Opens a run: refusal 1 to 8 or 0. The triple count, 0 for not done and five zeros are written.
#[unsafe(no_mangle)]
pub extern "C" fn tablestork_open(
    table: &mut [u8],
    arena: &mut [u8],
    terms: &mut u32,
    used: &mut u32,
    load: &[u8],
    store: &mut [u8],
    findings: &mut [u8],
    work: &mut [u8],
    triples: &mut u32,
    done: &mut u32,
    counts: &mut [u32; 5],
) -> u32
    ensures { turn_result result triples.new done.new counts.new
        store.new findings.new work.new
        (dict table.new arena.new terms.new used.new)
        ≡ turn_bytes_give open_past (dict table.old arena.old terms.old used.old)
        (lent load.now store.old findings.old work.old) }
{
    let mut t = [0u32; TABLE_LIMIT];
    let mut l = [0u32; LOAD_ARRAY];
    let mut s = [0u32; STORE];
    let mut f = [0u32; FINDINGS];
    let mut w = [0u32; WORK];
    let next = turn_in(
        false, &mut t, &mut l, &mut s, &mut f, &mut w, table, arena, *terms, *used, load, store,
        findings, work,
    );
    *terms = next.counters.terms;
    *used = next.counters.used;
    match next.answer {
        Ok(answer) => {
            *triples = answer.run.count;
            *done = u32::from(answer.done);
            let five = answer.run.counts;
            *counts = five;
            0
        }
        Err(refusal) => {
            *triples = 0;
            *done = 0;
            *counts = [0; 5];
            refusal.number()
        }
    }
}

// One pass of a run: refusal 1 to 9 or 0, of which 4 is tried once more, after 7. The triple count, whether the run is done and the five
// counts are written.
#[unsafe(no_mangle)]
pub extern "C" fn tablestork_pass(
    table: &mut [u8],
    arena: &mut [u8],
    terms: &mut u32,
    used: &mut u32,
    load: &[u8],
    store: &mut [u8],
    findings: &mut [u8],
    work: &mut [u8],
    triples: &mut u32,
    done: &mut u32,
    counts: &mut [u32; 5],
) -> u32
    ensures { turn_result result triples.new done.new counts.new
        store.new findings.new work.new
        (dict table.new arena.new terms.new used.new)
        ≡ turn_bytes_give pass_past (dict table.old arena.old terms.old used.old)
        (lent load.now store.old findings.old work.old) }
{
    let mut t = [0u32; TABLE_LIMIT];
    let mut l = [0u32; LOAD_ARRAY];
    let mut s = [0u32; STORE];
    let mut f = [0u32; FINDINGS];
    let mut w = [0u32; WORK];
    let next = turn_in(
        true, &mut t, &mut l, &mut s, &mut f, &mut w, table, arena, *terms, *used, load, store,
        findings, work,
    );
    *terms = next.counters.terms;
    *used = next.counters.used;
    match next.answer {
        Ok(answer) => {
            *triples = answer.run.count;
            *done = u32::from(answer.done);
            let five = answer.run.counts;
            *counts = five;
            0
        }
        Err(refusal) => {
            *triples = 0;
            *done = 0;
            *counts = [0; 5];
            refusal.number()
        }
    }
}

// Reads a file: refusal 1, 2, 14, 13, 11, 7, 3 or 0. The triple count is written.
#[unsafe(no_mangle)]
pub extern "C" fn tablestork_read(
    table: &mut [u8],
    arena: &mut [u8],
    terms: &mut u32,
    used: &mut u32,
    file: &[u8],
    load: &mut [u8],
    triples: &mut u32,
) -> u32
    ensures { read_result result triples.new load.new
        (dict table.new arena.new terms.new used.new)
        ≡ read_bytes_give (dict table.old arena.old terms.old used.old)
        load.old file.now }
{
    let mut t = [0u32; TABLE_LIMIT];
    let mut l = [0u32; FULL_ARRAY];
    let next = read_in(&mut t, &mut l, table, arena, *terms, *used, file, load);
    *terms = next.counters.terms;
    *used = next.counters.used;
    *triples = next.count;
    next.number
}

// Writes the first rows of a store as N-Triples: refusal 1, 4, 6, 15 or 0. The text's length and the number of triples left out are
// written.
#[unsafe(no_mangle)]
pub extern "C" fn tablestork_write(
    table: &[u8],
    arena: &[u8],
    terms: u32,
    used: u32,
    store: &[u8],
    triples: u32,
    page: &mut [u8],
    length: &mut u64,
    left: &mut u32,
) -> u32
    ensures { write_answer result length.new left.new page.new
        ≡ write_bytes_give (dict table.now arena.now terms used) store.now triples
        page.old }
{
    let mut t = [0u32; TABLE_LIMIT];
    let mut s = [0u32; STORE];
    let written = write_in(
        &mut t, &mut s, table, arena, terms, used, store, triples, page,
    );
    match written {
        Ok(next) => {
            *length = next.used as u64;
            *left = next.left;
            0
        }
        Err(refusal) => {
            *length = 0;
            *left = 0;
            refusal.number()
        }
    }
}
