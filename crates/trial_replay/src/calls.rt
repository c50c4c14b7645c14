// The eight calls on a memory: each takes its arguments from the cells, and leaves there what it gives and the buffers as they are after
// it.
ghost use Rattle.std.specs.Prelude.{◌≡◌, eqb, length, get_or};
ghost use Rattle.common.specs.Refusals.{answer_number};
ghost use Rattle.dictionary_layout.specs.Values.{contents};
ghost use Rattle.driver_load.specs.Values.{count_of, counts_of};
ghost use Rattle.driver_refusals.specs.Lent.{lent};
ghost use Rattle.driver_turns.specs.Turns.{turn_gives, past};
ghost use Rattle.driver_turns.specs.Values.{turn_leaves};
ghost use Rattle.trial_replay.specs.Cells.{terms_cell, used_cell, term_cells, term_room};
ghost use Rattle.trial_replay.specs.Made.{bytes_from, held, answered, counted, start_made, put_made, narrowed, lookup_made};
ghost use Rattle.trial_replay.specs.Made.{run_held, whole_part, turn_part, run_part, run_lent, run_taken, run_made};
ghost use Rattle.trial_replay.specs.Made.{read_held, read_part, read_lent, read_made, write_held, write_part, write_lent};
ghost use Rattle.trial_replay.specs.Made.{write_made, made_on, made_lent, made};

use common::{Id, Refusal};
use dictionary_index::{Counters, lookup, put_by_value, start};
use driver_read::read;
use driver_run::{RunAnswer, run};
use driver_turns::{TurnNext, open, pass};
use driver_write::write;
use trial_buffers::memory::{
    cell, give_bytes, give_numbers, length_in, set_cell, take_bytes, take_numbers,
};

// Where each buffer begins.
const TABLE: usize = 32;

const ARENA: usize = 352;

const TERM: usize = 9952;

const PART: usize = 14052;

const STORE: usize = 18152;

const FINDINGS: usize = 20252;

const WORK: usize = 20752;

pub const LOAD: usize = 20952;

// How many cells a buffer has.
const TABLE_ROOM: usize = 320;

const ARENA_ROOM: usize = 9600;

const TERM_ROOM: usize = 4100;

const PART_ROOM: usize = 4100;

const STORE_ROOM: usize = 2100;

const FINDINGS_ROOM: usize = 500;

const WORK_ROOM: usize = 200;

pub const LOAD_ROOM: usize = 49160;

// Lengths, arguments and results.
const TABLE_LENGTH: usize = 0;

const ARENA_LENGTH: usize = 1;

const TERM_LENGTH: usize = 2;

const LOAD_LENGTH: usize = 3;

const STORE_LENGTH: usize = 4;

const FINDINGS_LENGTH: usize = 5;

const WORK_LENGTH: usize = 6;

const PUT_KIND: usize = 7;

const LOOKUP_ID: usize = 8;

const TERMS: usize = 9;

const USED: usize = 10;

const NUMBER: usize = 11;

const ID: usize = 12;

const KIND: usize = 13;

const PART_LENGTH: usize = 14;

const COUNT: usize = 15;

const COUNTS: usize = 16;

const DONE: usize = 21;

const PAGE_LENGTH: usize = 22;

const TRIPLES: usize = 23;

const TEXT_LENGTH: usize = 24;

const LEFT_OUT: usize = 25;

fn counters_in(memory: &[u32]) -> Counters
    ensures { result ≡ record { terms = get_or memory.now terms_cell 0; used = get_or memory.now used_cell 0 } }
{
    Counters {
        terms: cell(memory, TERMS),
        used: cell(memory, USED),
    }
}

// What a call answers, and the counters after it.
fn answer(memory: &mut [u32], number: u32, counters: Counters)
    ensures { memory.new ≡ answered memory.old number counters.terms counters.used }
{
    set_cell(&mut *memory, NUMBER, number);
    set_cell(&mut *memory, TERMS, counters.terms);
    set_cell(memory, USED, counters.used);
}

// A refused start leaves no counters.
fn make_start(memory: &mut [u32], table: &mut [u32], arena: &mut [u8])
    ensures { held memory.new table.new arena.new
        ≡ start_made (held memory.old table.old arena.old) }
{
    match start(table, arena) {
        Ok(counters) => answer(memory, 0, counters),
        Err(refusal) => answer(memory, refusal.number(), Counters { terms: 0, used: 0 }),
    }
}

fn put_term(memory: &mut [u32], table: &mut [u32], arena: &mut [u8], term: &[u8])
    ensures { held memory.new table.new arena.new
        ≡ put_made (held memory.old table.old arena.old) term.now }
{
    let counters = counters_in(&*memory);
    let kind = cell(&*memory, PUT_KIND);
    let n = length_in(&*memory, TERM_LENGTH, term.len());
    match put_by_value(table, arena, counters, kind, &term[..n]) {
        Ok(next) => {
            set_cell(&mut *memory, ID, next.id.0);
            answer(memory, 0, next.counters);
        }
        Err(refusal) => {
            set_cell(&mut *memory, ID, 0);
            answer(memory, refusal.number(), counters);
        }
    }
}

fn make_put(memory: &mut [u32], table: &mut [u32], arena: &mut [u8])
    ensures { held memory.new table.new arena.new
        ≡ put_made (held memory.old table.old arena.old)
        (bytes_from memory.old term_cells term_room) }
{
    let mut term = [0u8; TERM_ROOM];
    take_bytes(&*memory, TERM, &mut term);
    put_term(memory, table, arena, &term);
}

// No arena, and no page, is as long as the numbers of a memory go.
fn narrow(length: usize) -> u32
    ensures { result ≡ narrowed length }
{
    u32::try_from(length).unwrap_or(0)
}

fn make_lookup(memory: &mut [u32], table: &[u32], arena: &[u8])
    ensures { held memory.new table.now arena.now
        ≡ lookup_made (held memory.old table.now arena.now) }
{
    let counters = counters_in(&*memory);
    let id = cell(&*memory, LOOKUP_ID);
    let mut number: u32 = 0;
    let mut kind: u32 = 0;
    let part = lookup(table, arena, counters, Id(id), &mut number, &mut kind);
    set_cell(&mut *memory, KIND, kind);
    set_cell(&mut *memory, PART_LENGTH, narrow(part.len()));
    give_bytes(&mut *memory, PART, part);
    answer(memory, number, counters);
}

// What a run answers, with zeros in place of the counts of a refusal, and the counters after it.
fn answer_run(memory: &mut [u32], got: Result<RunAnswer, Refusal>, counters: Counters)
    ensures { memory.new
        ≡ answered (counted memory.old (count_of got) (counts_of got)) (answer_number got) counters.terms counters.used }
{
    let (number, count, counts) = match got {
        Ok(run) => {
            let counts = run.counts;
            (0, run.count, counts)
        }
        Err(refusal) => (refusal.number(), 0, [0; 5]),
    };
    set_cell(&mut *memory, COUNT, count);
    give_numbers(&mut *memory, COUNTS, &counts);
    answer(memory, number, counters);
}

fn run_whole(
    memory: &mut [u32],
    table: &mut [u32],
    arena: &mut [u8],
    load: &[u32],
    store: &mut [u32],
    findings: &mut [u32],
    work: &mut [u32],
)
    ensures { run_held (held memory.new table.new arena.new) store.new
        findings.new work.new
        ≡ whole_part (held memory.old table.old arena.old) (lent load.now
        store.old findings.old work.old) }
{
    let counters = counters_in(&*memory);
    let next = run(table, arena, counters, load, store, findings, work);
    answer_run(memory, next.answer, next.counters);
}

// A pass for 6, an opening call for another number.
fn turn(
    call: u32,
    table: &mut [u32],
    arena: &mut [u8],
    counters: Counters,
    load: &[u32],
    store: &mut [u32],
    findings: &mut [u32],
    work: &mut [u32],
) -> TurnNext
    ensures { turn_leaves result table.new arena.new (lent load.now store.new
        findings.new work.new)
        ≡ turn_gives (past (eqb call 6)) (contents table.old arena.old counters) (lent load.now
        store.old findings.old work.old) }
{
    if call == 6 {
        pass(table, arena, counters, load, store, findings, work)
    } else {
        open(table, arena, counters, load, store, findings, work)
    }
}

fn run_turn(
    call: u32,
    memory: &mut [u32],
    table: &mut [u32],
    arena: &mut [u8],
    load: &[u32],
    store: &mut [u32],
    findings: &mut [u32],
    work: &mut [u32],
)
    ensures { run_held (held memory.new table.new arena.new) store.new
        findings.new work.new
        ≡ turn_part call (held memory.old table.old arena.old) (lent load.now
        store.old findings.old work.old) }
{
    let counters = counters_in(&*memory);
    let next = turn(call, table, arena, counters, load, store, findings, work);
    let done = next.answer.is_ok_and(|turn| turn.done);
    set_cell(&mut *memory, DONE, u32::from(done));
    answer_run(memory, next.answer.map(|turn| turn.run), next.counters);
}

// A run for 3, else a call in turns.
#[tactic(auto, unfolding(crate::specs::Made::run_part))]
fn run_load(
    call: u32,
    memory: &mut [u32],
    table: &mut [u32],
    arena: &mut [u8],
    load: &[u32],
    store: &mut [u32],
    findings: &mut [u32],
    work: &mut [u32],
)
    ensures { run_held (held memory.new table.new arena.new) store.new
        findings.new work.new
        ≡ run_part call (held memory.old table.old arena.old) (lent load.now
        store.old findings.old work.old) }
{
    if call == 3 {
        run_whole(memory, table, arena, load, store, findings, work);
    } else {
        run_turn(call, memory, table, arena, load, store, findings, work);
    }
}

// Lends the call as much of each buffer as the memory says.
fn run_lent(
    call: u32,
    memory: &mut [u32],
    table: &mut [u32],
    arena: &mut [u8],
    load: &[u32],
    store: &mut [u32],
    findings: &mut [u32],
    work: &mut [u32],
)
    ensures { run_held (held memory.new table.new arena.new) store.new
        findings.new work.new
        ≡ run_lent call (held memory.old table.old arena.old) (lent load.now
        store.old findings.old work.old) }
{
    let l = length_in(&*memory, LOAD_LENGTH, load.len());
    let s = length_in(&*memory, STORE_LENGTH, store.len());
    let f = length_in(&*memory, FINDINGS_LENGTH, findings.len());
    let w = length_in(&*memory, WORK_LENGTH, work.len());
    run_load(
        call,
        memory,
        table,
        arena,
        &load[..l],
        &mut store[..s],
        &mut findings[..f],
        &mut work[..w],
    );
}

fn run_loaded(
    call: u32,
    memory: &mut [u32],
    table: &mut [u32],
    arena: &mut [u8],
    store: &mut [u32],
    findings: &mut [u32],
    work: &mut [u32],
)
    ensures { run_held (held memory.new table.new arena.new) store.new
        findings.new work.new
        ≡ run_taken call (held memory.old table.old arena.old) (length store.old)
        (length findings.old) (length work.old) }
{
    let mut load = [0u32; LOAD_ROOM];
    take_numbers(&*memory, LOAD, &mut load);
    take_numbers(&*memory, STORE, &mut *store);
    take_numbers(&*memory, FINDINGS, &mut *findings);
    take_numbers(&*memory, WORK, &mut *work);
    run_lent(call, memory, table, arena, &load, store, findings, work);
}

fn make_run(call: u32, memory: &mut [u32], table: &mut [u32], arena: &mut [u8])
    ensures { held memory.new table.new arena.new
        ≡ run_made call (held memory.old table.old arena.old) }
{
    let mut store = [0u32; STORE_ROOM];
    let mut findings = [0u32; FINDINGS_ROOM];
    let mut work = [0u32; WORK_ROOM];
    run_loaded(
        call,
        &mut *memory,
        table,
        arena,
        &mut store,
        &mut findings,
        &mut work,
    );
    give_numbers(&mut *memory, STORE, &store);
    give_numbers(&mut *memory, FINDINGS, &findings);
    give_numbers(memory, WORK, &work);
}

fn read_file(memory: &mut [u32], table: &mut [u32], arena: &mut [u8], file: &[u8], load: &mut [u32])
    ensures { read_held (held memory.new table.new arena.new) load.new
        ≡ read_part (held memory.old table.old arena.old) file.now load.old }
{
    let counters = counters_in(&*memory);
    let next = read(table, arena, counters, file, load);
    let left = next.counters;
    set_cell(&mut *memory, COUNT, next.count);
    answer(memory, next.number, left);
}

// Lends a read as much of the file and of the load as the memory says.
fn read_lent(memory: &mut [u32], table: &mut [u32], arena: &mut [u8], file: &[u8], load: &mut [u32])
    ensures { read_held (held memory.new table.new arena.new) load.new
        ≡ read_lent (held memory.old table.old arena.old) file.now load.old }
{
    let f = length_in(&*memory, TERM_LENGTH, file.len());
    let l = length_in(&*memory, LOAD_LENGTH, load.len());
    read_file(memory, table, arena, &file[..f], &mut load[..l]);
}

// The file of a read is in the cells of a term.
fn make_read(memory: &mut [u32], table: &mut [u32], arena: &mut [u8])
    ensures { held memory.new table.new arena.new
        ≡ read_made (held memory.old table.old arena.old) }
{
    let mut file = [0u8; TERM_ROOM];
    let mut load = [0u32; LOAD_ROOM];
    take_bytes(&*memory, TERM, &mut file);
    take_numbers(&*memory, LOAD, &mut load);
    read_lent(&mut *memory, table, arena, &file, &mut load);
    give_numbers(memory, LOAD, &load);
}

fn write_text(memory: &mut [u32], table: &[u32], arena: &[u8], store: &[u32], page: &mut [u8])
    ensures { write_held (held memory.new table.now arena.now) page.new
        ≡ write_part (held memory.old table.now arena.now) store.now page.old }
{
    let counters = counters_in(&*memory);
    let triples = cell(&*memory, TRIPLES);
    let (number, used, left) = match write(table, arena, counters, store, triples, page) {
        Ok(next) => (0, next.used, next.left),
        Err(refusal) => (refusal.number(), 0, 0),
    };
    set_cell(&mut *memory, TEXT_LENGTH, narrow(used));
    set_cell(&mut *memory, LEFT_OUT, left);
    answer(memory, number, counters);
}

// Lends a write as much of the store and of the page as the memory says.
fn write_lent(memory: &mut [u32], table: &[u32], arena: &[u8], store: &[u32], page: &mut [u8])
    ensures { write_held (held memory.new table.now arena.now) page.new
        ≡ write_lent (held memory.old table.now arena.now) store.now page.old }
{
    let s = length_in(&*memory, STORE_LENGTH, store.len());
    let p = length_in(&*memory, PAGE_LENGTH, page.len());
    write_text(memory, table, arena, &store[..s], &mut page[..p]);
}

// The page of a write is in the cells of a part.
fn make_write(memory: &mut [u32], table: &[u32], arena: &[u8])
    ensures { held memory.new table.now arena.now
        ≡ write_made (held memory.old table.now arena.now) }
{
    let mut store = [0u32; STORE_ROOM];
    let mut page = [0u8; PART_ROOM];
    take_numbers(&*memory, STORE, &mut store);
    take_bytes(&*memory, PART, &mut page);
    write_lent(&mut *memory, table, arena, &store, &mut page);
    give_bytes(memory, PART, &page);
}

// The call with a number, on this table and arena.
#[tactic(auto, unfolding(crate::specs::Made::made_on))]
fn make_on(call: u32, memory: &mut [u32], table: &mut [u32], arena: &mut [u8])
    ensures { held memory.new table.new arena.new
        ≡ made_on call (held memory.old table.old arena.old) }
{
    match call {
        0 => make_start(memory, table, arena),
        1 => make_put(memory, table, arena),
        2 => make_lookup(memory, &*table, &*arena),
        4 => make_read(memory, table, arena),
        7 => make_write(memory, &*table, &*arena),
        3 | 5 | 6 => make_run(call, memory, table, arena),
        _ => {}
    }
}

// Lends the call as much of the table and the arena as the memory says.
fn make_lent(call: u32, memory: &mut [u32], table: &mut [u32], arena: &mut [u8])
    ensures { held memory.new table.new arena.new
        ≡ made_lent call (held memory.old table.old arena.old) }
{
    let t = length_in(&*memory, TABLE_LENGTH, table.len());
    let a = length_in(&*memory, ARENA_LENGTH, arena.len());
    make_on(call, memory, &mut table[..t], &mut arena[..a]);
}

// Makes the call: 0 start, 1 put, 2 lookup, 3 run, 4 read, 5 open, 6 pass, 7 write; another number makes none.
pub fn make(call: u32, memory: &mut [u32])
    ensures { memory.new ≡ made call memory.old }
{
    let mut table = [0u32; TABLE_ROOM];
    let mut arena = [0u8; ARENA_ROOM];
    take_numbers(&*memory, TABLE, &mut table);
    take_bytes(&*memory, ARENA, &mut arena);
    make_lent(call, &mut *memory, &mut table, &mut arena);
    give_numbers(&mut *memory, TABLE, &table);
    give_bytes(memory, ARENA, &arena);
}
