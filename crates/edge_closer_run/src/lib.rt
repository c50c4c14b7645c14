// Program closer as a function on slices: from the bytes of its input to those of its output.
#![tactic(auto)]

ghost use Rattle.std.specs.Prelude.{◌≡◌, ◌≤◌, length, take};
ghost use Rattle.meaning.specs.Closure.{total as sum};
ghost use Rattle.dictionary_layout.specs.Values.{contents};
ghost use Rattle.edge_decimal.specs.Promises.{Wrote};
ghost use Rattle.edge_closer_text.specs.Sizes.{record_limit, output_length};
ghost use Rattle.edge_closer_run.specs.Program.{named, ran, printed_run, output};
ghost use Rattle.edge_closer_run.specs.Promises.{Ran, Printed};

use common::{ENTRY_WIDTH, HEADS_WIDTH, LOAD_WIDTH, Refusal, WORK_WIDTH};
use dictionary_index::{Counters, put, start};
use driver_run::{RunAnswer, run};
use edge_closer_text::{
    BadLine, FINDINGS, IDS, Input, LONGEST, NAME, STORE, parse, print_answer, print_bad_line,
    print_name, print_refusal,
};

// How many bytes the program reads: one more than the longest good input has. So many decide as much as the whole input, as `close_read`
// promises.
pub const INPUT: usize = LONGEST + 1;

// The start's terms, the names of the largest count and the run's terms fit into the entries, and their bytes into the arena.
const ENTRIES: usize = 600;

const TABLE: usize = HEADS_WIDTH + ENTRY_WIDTH * ENTRIES;

const ARENA: usize = 16384;

const WORK: usize = WORK_WIDTH * ENTRIES;

// Puts the named nodes urn:t1 to urn:tN, N being the count.
fn put_names(table: &mut [u32], arena: &mut [u8], counters: Counters, count: u32) -> Counters
    ensures { contents table.new arena.new result
        ≡ named count (contents table.old arena.old counters) }
{
    let mut name = [0u8; NAME];
    let mut left = counters;
    for n in 1..=count {
        let end = print_name(n, &mut name);
        // a refused put leaves the counters as they were
        let _ = put(&mut *table, &mut *arena, &mut left, 1, &name[..end]);
    }
    left
}

// A run of a load over a new dictionary that holds so many names.
fn run_input(
    count: u32,
    load: &[u32],
    store: &mut [u32],
    findings: &mut [u32],
) -> Result<RunAnswer, Refusal>
    ensures { Ran (ran count load.now store.old findings.old) result
        store.new findings.new }
{
    let mut table = [0u32; TABLE];
    let mut arena = [0u8; ARENA];
    let mut work = [0u32; WORK];
    let started = start(&mut table, &mut arena).unwrap();
    let counters = put_names(&mut table, &mut arena, started, count);
    let next = run(
        &mut table, &mut arena, counters, load, store, findings, &mut work,
    );
    next.answer
}

// The number of findings.
fn total(counts: [u32; 5]) -> u32
    requires { (length counts ≡ 5) × (sum counts ≤ record_limit) }
    ensures { result ≡ sum counts }
{
    counts.iter().sum()
}

// Prints what a run of a load gives.
fn print_run(count: u32, load: &[u32], out: &mut [u8]) -> usize
    requires { output_length ≤ length out.old }
    ensures { Wrote out.old 0 (printed_run count load.now) out.new result }
{
    let mut store = [0u32; STORE];
    let mut findings = [0u32; FINDINGS];
    match run_input(count, load, &mut store, &mut findings) {
        Ok(answer) => {
            let records = total(answer.counts);
            print_answer(&store, answer.count, &findings, records, out)
        }
        Err(refusal) => print_refusal(refusal.number(), out),
    }
}

// Writes to `out` what the program prints for an input, and answers how many bytes it is.
pub fn close_input(input: &[u8], out: &mut [u8]) -> usize
    requires { output_length ≤ length out.old }
    ensures { Wrote out.old 0 (output input.now) out.new result }
{
    let mut ids = [0u32; IDS];
    match parse(input, &mut ids) {
        Ok(Input { count, lines }) => print_run(count, &ids[..LOAD_WIDTH * lines], out),
        Err(BadLine { number }) => print_bad_line(number, out),
    }
}

// The same for the first n bytes of what was read.
fn close_first(read: &[u8], n: usize, out: &mut [u8]) -> usize
    requires { (n ≤ length read.now) × (output_length ≤ length out.old) }
    ensures { Wrote out.old 0 (output (take n read.now)) out.new result }
{
    close_input(&read[..n], out)
}

// The same for an input of which the first n bytes of `read` are all, or as many as there is room for.
pub fn close_read(read: &[u8; INPUT], n: usize, out: &mut [u8]) -> usize
    requires { (n ≤ length read.now) × (output_length ≤ length out.old) }
    ensures { Printed read.now n out.old out.new result }
{
    close_first(read, n, out)
}
