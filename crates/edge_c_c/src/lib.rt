// The archive for C: the entry points of edge_c under the names that C calls. A crate is built as a library or as a static library, and
// edge_byte_calls depends on edge_c, so the exports stand here: each calls the function of its name and has its contract.
#![tactic(auto)]

ghost use Rattle.std.specs.Prelude.{◌≡◌};
ghost use Rattle.dictionary_layout.specs.Terms.{term};
ghost use Rattle.dictionary_layout.specs.Layout.{dict};
ghost use Rattle.dictionary_layout.specs.Calls.{start_result, put_result};
ghost use Rattle.driver_refusals.specs.Lent.{lent};
ghost use Rattle.edge_c.specs.Calls.{read_dict, start_bytes_give, put_bytes_give, place_answer, Places, run_bytes_give};
ghost use Rattle.edge_c.specs.Calls.{run_result, turn_bytes_give, turn_result, read_result, read_bytes_give, write_bytes_give};
ghost use Rattle.driver_turns.specs.Turns.{open_past, pass_past};
ghost use Rattle.ntriples_canonical.specs.Calls.{write_answer};

// Starts a dictionary: refusal 4, 7 or 0. The counters are written.
#[unsafe(no_mangle)]
pub extern "C" fn tablestork_start(
    table: &mut [u8],
    arena: &mut [u8],
    terms: &mut u32,
    used: &mut u32,
) -> u32
    ensures { start_result result (dict table.new arena.new terms.new used.new)
        ≡ start_bytes_give table.old arena.old }
{
    edge_c::tablestork_start(table, arena, terms, used)
}

// Puts a term: refusal 1, 10, 11, 7 or 0. The id is written, and the counters change with the table and the arena.
#[unsafe(no_mangle)]
pub extern "C" fn tablestork_put(
    table: &mut [u8],
    arena: &mut [u8],
    terms: &mut u32,
    used: &mut u32,
    kind: u32,
    bytes: &[u8],
    id: &mut u32,
) -> u32
    ensures { put_result result id.new
        (dict table.new arena.new terms.new used.new)
        ≡ put_bytes_give (dict table.old arena.old terms.old used.old)
        (term kind bytes.now) }
{
    edge_c::tablestork_put(table, arena, terms, used, kind, bytes, id)
}

// Looks a term up: refusal 1, 12 or 0. The kind, and the place and the length of the term's bytes in the arena are written.
#[unsafe(no_mangle)]
pub extern "C" fn tablestork_lookup(
    table: &[u8],
    arena: &[u8],
    terms: u32,
    used: u32,
    id: u32,
    kind: &mut u32,
    begin: &mut u64,
    len: &mut u64,
) -> u32
    ensures { Places (read_dict (dict table.now arena.now terms used)) id
        (place_answer result kind.new begin.new len.new) }
{
    edge_c::tablestork_lookup(table, arena, terms, used, id, kind, begin, len)
}

// Runs: refusal 1 to 9 or 0. The triple count and the five counts are written.
#[unsafe(no_mangle)]
pub extern "C" fn tablestork_run(
    table: &mut [u8],
    arena: &mut [u8],
    terms: &mut u32,
    used: &mut u32,
    load: &[u8],
    store: &mut [u8],
    findings: &mut [u8],
    work: &mut [u8],
    triples: &mut u32,
    counts: &mut [u32; 5],
) -> u32
    ensures { run_result result triples.new counts.new
        store.new findings.new work.new
        (dict table.new arena.new terms.new used.new)
        ≡ run_bytes_give (dict table.old arena.old terms.old used.old)
        (lent load.now store.old findings.old work.old) }
{
    edge_c::tablestork_run(
        table, arena, terms, used, load, store, findings, work, triples, counts,
    )
}

// Opens a run: refusal 1 to 8 or 0. The triple count, 0 for not done and five zeros are written.
#[unsafe(no_mangle)]
pub extern "C" fn tablestork_open(
    table: &mut [u8],
    arena: &mut [u8],
    terms: &mut u32,
    used: &mut u32,
    load: &[u8],
    store: &mut [u8],
    findings: &mut [u8],
    work: &mut [u8],
    triples: &mut u32,
    done: &mut u32,
    counts: &mut [u32; 5],
) -> u32
    ensures { turn_result result triples.new done.new counts.new
        store.new findings.new work.new
        (dict table.new arena.new terms.new used.new)
        ≡ turn_bytes_give open_past (dict table.old arena.old terms.old used.old)
        (lent load.now store.old findings.old work.old) }
{
    edge_c::tablestork_open(
        table, arena, terms, used, load, store, findings, work, triples, done, counts,
    )
}

// One pass of a run: refusal 1 to 9 or 0, of which 4 is tried once more, after 7. The triple count, whether the run is done and the five
// counts are written.
#[unsafe(no_mangle)]
pub extern "C" fn tablestork_pass(
    table: &mut [u8],
    arena: &mut [u8],
    terms: &mut u32,
    used: &mut u32,
    load: &[u8],
    store: &mut [u8],
    findings: &mut [u8],
    work: &mut [u8],
    triples: &mut u32,
    done: &mut u32,
    counts: &mut [u32; 5],
) -> u32
    ensures { turn_result result triples.new done.new counts.new
        store.new findings.new work.new
        (dict table.new arena.new terms.new used.new)
        ≡ turn_bytes_give pass_past (dict table.old arena.old terms.old used.old)
        (lent load.now store.old findings.old work.old) }
{
    edge_c::tablestork_pass(
        table, arena, terms, used, load, store, findings, work, triples, done, counts,
    )
}

// Reads a file: refusal 1, 2, 14, 13, 11, 7, 3 or 0. The triple count is written.
#[unsafe(no_mangle)]
pub extern "C" fn tablestork_read(
    table: &mut [u8],
    arena: &mut [u8],
    terms: &mut u32,
    used: &mut u32,
    file: &[u8],
    load: &mut [u8],
    triples: &mut u32,
) -> u32
    ensures { read_result result triples.new load.new
        (dict table.new arena.new terms.new used.new)
        ≡ read_bytes_give (dict table.old arena.old terms.old used.old)
        load.old file.now }
{
    edge_c::tablestork_read(table, arena, terms, used, file, load, triples)
}

// Writes the first rows of a store as N-Triples: refusal 1, 4, 6, 15 or 0. The text's length and the number of triples left out are
// written.
#[unsafe(no_mangle)]
pub extern "C" fn tablestork_write(
    table: &[u8],
    arena: &[u8],
    terms: u32,
    used: u32,
    store: &[u8],
    triples: u32,
    page: &mut [u8],
    length: &mut u64,
    left: &mut u32,
) -> u32
    ensures { write_answer result length.new left.new page.new
        ≡ write_bytes_give (dict table.now arena.now terms used) store.now triples
        page.old }
{
    edge_c::tablestork_write(
        table, arena, terms, used, store, triples, page, length, left,
    )
}
