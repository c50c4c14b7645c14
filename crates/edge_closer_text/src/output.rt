// The output: lines of decimal numbers, one space between.
ghost use Rattle.std.specs.Prelude.{◌≡◌, ◌+◌, ◌*◌, ◌≤◌, length};
ghost use Rattle.edge_closer_text.specs.Sizes.{number_width, three_width, bad_line_width, name_width};
ghost use Rattle.edge_closer_text.specs.Output.{ending as Output·ending, line, table, answer, refusal, bad_line_text, name};
ghost use Rattle.edge_decimal.specs.Promises.{Wrote};
ghost use Rattle.edge_closer_text.specs.Promises.{TableFits, AnswerFits};

use common::{FINDING_WIDTH, STORE_WIDTH};
use edge_decimal::put_number;

// The most triples of the program's store and records of its findings, and how many numbers these are.
const TRIPLE_LIMIT: usize = 2000;

const RECORD_LIMIT: usize = 400;

pub const STORE: usize = STORE_WIDTH * TRIPLE_LIMIT;

pub const FINDINGS: usize = FINDING_WIDTH * RECORD_LIMIT;

// How many numbers of a store's row are printed: its triple.
const TRIPLE_WIDTH: usize = 3;

// The most bytes of a number in print, ten digits, with the byte after it; and of a line of three.
pub const NUMBER_WIDTH: usize = 11;

pub const THREE_WIDTH: usize = 3 * NUMBER_WIDTH;

// Room to print the triples of the store and the findings, after a line of the counts.
pub const OUTPUT: usize = THREE_WIDTH + NUMBER_WIDTH * (TRIPLE_WIDTH * TRIPLE_LIMIT + FINDINGS);

// The most bytes of a name.
pub const NAME: usize = 15;

// Writes the bytes from place `at` on, and answers the place after them.
pub fn put_bytes(bytes: &[u8], out: &mut [u8], at: usize) -> usize
    requires { at + length bytes.now ≤ length out.old }
    ensures { Wrote out.old at bytes.now out.new result }
{
    let end = at + bytes.len();
    out[at..end].copy_from_slice(bytes);
    end
}

// The byte after a number of a line that so many others follow.
pub fn ending(others: usize) -> u8
    ensures { result ≡ Output·ending others }
{
    if others == 0 { b'\n' } else { b' ' }
}

// Writes a line of the numbers.
pub fn put_line(numbers: &[u32], out: &mut [u8], at: usize) -> usize
    requires { at + number_width * length numbers.now ≤ length out.old }
    ensures { Wrote out.old at (line numbers.now) out.new result }
{
    let mut to = at;
    for (i, n) in numbers.iter().enumerate() {
        let end = put_number(*n, &mut *out, to);
        out[end] = ending(numbers.len() - (i + 1));
        to = end + 1;
    }
    to
}

// Writes the first `printed` numbers of each of the first `rows` rows of `width` numbers, a line a row.
pub fn put_table(
    numbers: &[u32],
    width: usize,
    printed: usize,
    rows: usize,
    out: &mut [u8],
    at: usize,
) -> usize
    requires { TableFits numbers.now width printed rows out.old at }
    ensures { Wrote out.old at (table width printed rows numbers.now) out.new result }
{
    let mut to = at;
    for i in 0..rows {
        let start = width * i;
        let end = start + printed;
        to = put_line(&numbers[start..end], &mut *out, to);
    }
    to
}

// An accepted run: refusal 0, the two counts, the triples, the findings.
pub fn print_answer(
    store: &[u32],
    triples: u32,
    findings: &[u32],
    records: u32,
    out: &mut [u8],
) -> usize
    requires { AnswerFits store.now triples findings.now records out.old }
    ensures { Wrote out.old 0
        (answer store.now triples findings.now records) out.new result }
{
    let head = [0u32, triples, records];
    let first = put_line(&head, &mut *out, 0);
    let next = put_table(
        store,
        STORE_WIDTH,
        TRIPLE_WIDTH,
        triples as usize,
        &mut *out,
        first,
    );
    put_table(
        findings,
        FINDING_WIDTH,
        FINDING_WIDTH,
        records as usize,
        &mut *out,
        next,
    )
}

// A refused run: its number and two zeros.
pub fn print_refusal(number: u32, out: &mut [u8]) -> usize
    requires { three_width ≤ length out.old }
    ensures { Wrote out.old 0 (refusal number) out.new result }
{
    let head = [number, 0, 0];
    put_line(&head, out, 0)
}

// The first bad line.
pub fn print_bad_line(number: u32, out: &mut [u8]) -> usize
    requires { bad_line_width ≤ length out.old }
    ensures { Wrote out.old 0 (bad_line_text number) out.new result }
{
    let start = put_bytes(b"bad line ", &mut *out, 0);
    let end = put_number(number, &mut *out, start);
    out[end] = b'\n';
    end + 1
}

// The bytes of the n-th named node that the program puts.
pub fn print_name(n: u32, out: &mut [u8]) -> usize
    requires { name_width ≤ length out.old }
    ensures { Wrote out.old 0 (name n) out.new result }
{
    let start = put_bytes(b"urn:t", &mut *out, 0);
    put_number(n, out, start)
}
