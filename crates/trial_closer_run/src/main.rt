// Runs what program closer runs on many inputs and prints each output. The file stdout was written by hand as REFERENCE 10 has it, case by
// case in the order below, and then compared with harness/model, the reference model.
#![tactic(auto)]

ghost use Rattle.std.specs.Prelude.{◌+◌, ◌*◌, ◌≤◌, ◌<◌, length};
ghost use Rattle.edge_closer_text.specs.Sizes.{three_width, input_length};

use edge_closer_run::{INPUT, close_input, close_read};
use edge_closer_text::input::find_byte;
use edge_closer_text::output::{put_bytes, put_line};
use edge_closer_text::{LONGEST, OUTPUT, THREE_WIDTH};
use std::io;

// Room for the longest input built here: one line more than a good input has.
const TEXT: usize = LONGEST + THREE_WIDTH;

// Prints the output of an input.
fn print_output(rt: &impl Print, input: &[u8]) -> io::Result<()> {
    let mut out = [0u8; OUTPUT];
    let n = close_input(input, &mut out);
    rt.write_all(&out[..n])
}

// Prints the first line of the output.
fn print_first_line(rt: &impl Print, input: &[u8]) -> io::Result<()> {
    let mut out = [0u8; OUTPUT];
    let n = close_input(input, &mut out);
    if let Some(end) = find_byte(&out[..n], 0, b'\n') {
        rt.write_all(&out[..end])?;
    }
    rt.write_all(b"\n")
}

// The example of REFERENCE 10.4, with and without its last line feed; then the other cases of REFERENCE 11.1.
fn answers(rt: &impl Print) -> io::Result<()> {
    print_output(rt, b"3\n31 1 32\n32 8 33\n")?;
    print_output(rt, b"3\n31 1 32\n32 8 33")?;
    print_output(rt, b"0\n")?;
    print_output(rt, b"0")?;
    print_output(rt, b"5\n31 1 19\n32 31 33\n34 31 35\n")?;
    print_output(rt, b"5\n31 1 20\n32 31 33\n34 31 35\n")?;
    print_output(rt, b"4\n31 1 20\n32 31 33\n34 31 33\n")?;
    print_output(rt, b"3\n31 1 32\n31 1 33\n32 26 33\n")?;
    print_output(rt, b"3\n31 1 15\n32 31 33\n33 31 32\n")?;
    print_output(rt, b"4\n31 29 32\n33 31 34\n33 32 34\n")?;
    print_output(rt, b"4\n31 21 32\n32 2 33\n32 3 4\n34 1 33\n")?;
    // the checks that the list leaves out: irreflexive, Nothing
    print_output(rt, b"2\n31 1 14\n32 31 32\n")?;
    print_output(rt, b"1\n31 1 10\n")
}

// Another shape of the first line.
fn bad_counts(rt: &impl Print) -> io::Result<()> {
    print_output(rt, b"")?;
    print_output(rt, b"\n")?;
    print_output(rt, b"501\n")?;
    print_output(rt, b"03\n")?;
    print_output(rt, b"+3\n")?;
    print_output(rt, b"3\r\n")?;
    print_output(rt, b"3 \n")?;
    print_output(rt, b" 3\n")?;
    print_output(rt, b"3 4\n")?;
    print_output(rt, b"4294967296\n")?;
    print_output(rt, b"31 1 32\n")?;
    // the second line is bad too
    print_output(rt, b"501\n31 1\n")?;
    let long = [b'1'; 40000];
    print_output(rt, &long)
}

// Another shape of an id line, and the first of several.
fn bad_id_lines(rt: &impl Print) -> io::Result<()> {
    print_output(rt, b"3\n\n31 1 32\n")?;
    print_output(rt, b"3\n31 1 32\n\n")?;
    print_output(rt, b"3\n31 01 32\n")?;
    print_output(rt, b"3\n31  1 32\n")?;
    print_output(rt, b"3\n31 1 32 \n")?;
    print_output(rt, b"3\n 31 1 32\n")?;
    print_output(rt, b"3\n31 1 32\r\n")?;
    print_output(rt, b"3\n31 -1 32\n")?;
    print_output(rt, b"3\n31 +1 32\n")?;
    print_output(rt, b"3\n31 1 4294967296\n")?;
    print_output(rt, b"3\n31 1\n")?;
    print_output(rt, b"3\n31 1 32 8\n")?;
    print_output(rt, b"3\n31 1 32\n32 8\n33\n")
}

// A blank id before an unknown one, wherever they stand; the run's own three terms are unknown to a load.
fn refusals(rt: &impl Print) -> io::Result<()> {
    print_output(rt, b"3\n31 1 0\n")?;
    print_output(rt, b"3\n0 1 32\n")?;
    print_output(rt, b"3\n34 1 31\n31 0 32\n")?;
    print_output(rt, b"3\n31 1 34\n")?;
    print_output(rt, b"0\n31 1 9\n")?;
    print_output(rt, b"500\n531 1 9\n")?;
    print_output(rt, b"3\n31 1 4294967295\n")
}

// Writes so many lines of three ids: in each the object is the subject and 1, and the subject of the next line.
fn put_lines(first: u32, p: u32, lines: u32, text: &mut [u8], at: usize) -> usize
    requires { (first + lines < 4294967296) × (at + three_width * lines ≤ length text.old) }
    ensures { result ≤ at + three_width * lines }
{
    let mut to = at;
    for s in first..first + lines {
        let ids = [s, p, s + 1];
        to = put_line(&ids, &mut *text, to);
    }
    to
}

// So many classes above 31, each a subclass of the next; n classes in all have n (n - 1) / 2 subClassOf triples, n - 1 subjects, and 4
// triples more: 62 have 1,956, and 63 have 2,019. Then so many triples, of two each, and the last line.
fn chain(rt: &impl Print, classes: u32, others: u32, last: &[u8]) -> io::Result<()>
    requires { (classes ≤ 100) × (others ≤ 100) × (length last.now ≤ 100) }
{
    let mut text = [0u8; TEXT];
    let count = put_bytes(b"500\n", &mut text, 0);
    let at = put_lines(31, 8, classes, &mut text, count);
    let next = put_lines(101, 93, others, &mut text, at);
    let end = put_bytes(last, &mut text, next);
    print_first_line(rt, &text[..end])
}

// So many subjects of property 31, whose two domains are disjoint: four triples and one finding each, and 9 triples more.
fn clashes(rt: &impl Print, subjects: u32) -> io::Result<()>
    requires { subjects ≤ 500 }
{
    let mut text = [0u8; TEXT];
    let head = put_bytes(b"500\n31 5 32\n31 5 33\n32 26 33\n", &mut text, 0);
    let end = put_lines(35, 31, subjects, &mut text, head);
    print_first_line(rt, &text[..end])
}

// 499 triples twice, then so many of them again: a subject of type Thing for each, and 4 triples more.
fn repeated(rt: &impl Print, again: u32) -> io::Result<()>
    requires { again ≤ 3 }
{
    let mut text = [0u8; TEXT];
    let count = put_bytes(b"500\n", &mut text, 0);
    let once = put_lines(31, 93, 499, &mut text, count);
    let twice = put_lines(31, 93, 499, &mut text, once);
    let end = put_lines(31, 93, again, &mut text, twice);
    print_first_line(rt, &text[..end])
}

// The first n bytes of the longest good input, 1,000 lines of ids of ten digits, and of a further line, as `main` reads them.
fn longest(rt: &impl Print, n: usize) -> io::Result<()>
    requires { n ≤ input_length }
{
    let mut text = [b'1'; INPUT];
    let mut out = [0u8; OUTPUT];
    let count = put_bytes(b"500\n", &mut text, 0);
    put_lines(4294966295, 4294967295, 1000, &mut text, count);
    let end = close_read(&text, n, &mut out);
    rt.write_all(&out[..end])
}

fn limits(rt: &impl Print) -> io::Result<()> {
    chain(rt, 61, 0, b"")?;
    chain(rt, 61, 22, b"")?;
    chain(rt, 61, 22, b"101 93 93\n")?;
    chain(rt, 62, 0, b"")?;
    clashes(rt, 400)?;
    clashes(rt, 401)?;
    repeated(rt, 2)?;
    repeated(rt, 3)?;
    // whole, without its last line feed, with a line too many, and ended within the second id of its last line
    longest(rt, LONGEST)?;
    longest(rt, LONGEST - 1)?;
    longest(rt, LONGEST + 1)?;
    longest(rt, LONGEST - 14)
}

fn main(rt: HostRuntime) -> io::Result<()> {
    answers(&rt)?;
    bad_counts(&rt)?;
    bad_id_lines(&rt)?;
    refusals(&rt)?;
    limits(&rt)
}
