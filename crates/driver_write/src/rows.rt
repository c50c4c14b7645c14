// The rows of a store: whether their ids are known, how long their lines are, and the lines.
ghost use Rattle.std.specs.Prelude.{◌≡◌, ◌%◌, T, length};
ghost use Rattle.common.specs.Sizes.{store_width};
ghost use Rattle.common.specs.Triples.{all};
ghost use Rattle.common.specs.Values.{triple_of};
ghost use Rattle.dictionary_layout.specs.Values.{contents};
ghost use Rattle.ntriples_utf8.specs.Promises.{Wrote};
ghost use Rattle.ntriples_canonical.specs.Writing.{ended_line, line_text, text_of, left_out};
ghost use Rattle.ntriples_canonical.specs.Calls.{known};
ghost use Rattle.driver_write.specs.Lines.{terms_of, row_triples, all_lines, line_length, Lengths, KnownRows, LineFits, AllFit};

use crate::terms::{kind_of, put_term};
use crate::values::WriteNext;
use common::{STORE_WIDTH, Triple};
use dictionary_index::Counters;
use store_rows::row;

// Whether the ids of a triple are below the term count.
fn known(t: Triple, terms: u32) -> bool
    ensures { result ≡ known terms (triple_of t) }
{
    t.s.0 < terms && t.p.0 < terms && t.o.0 < terms
}

// Whether the ids of all rows are.
pub fn all_known(store: &[u32], terms: u32) -> bool
    requires { length store.now % store_width ≡ 0 }
    ensures { result ≡ all (known terms) (row_triples store.now) }
{
    for j in 0..store.len() / STORE_WIDTH {
        if !known(row(store, j), terms) {
            return false;
        }
    }
    true
}

// How long the line of a triple is with its end, none where the triple is left out.
fn line_length(
    table: &[u32],
    arena: &[u8],
    counters: Counters,
    lengths: &[u32],
    t: Triple,
) -> Option<usize>
    requires { Lengths (contents table.now arena.now counters) lengths.now × T (known counters.terms (triple_of t)) }
    ensures { result ≡ line_length (line_text (terms_of (contents table.now arena.now counters) (triple_of t))) }
{
    let s = lengths[t.s.0 as usize] as usize;
    let p = lengths[t.p.0 as usize] as usize;
    let o = lengths[t.o.0 as usize] as usize;
    if s == 0 || p == 0 || o == 0 {
        return None;
    }
    if kind_of(table, arena, counters, t.s) == 3 || kind_of(table, arena, counters, t.p) != 1 {
        return None;
    }
    Some(s + p + o + 5)
}

// The length of the text of all rows, and how many are left out.
pub fn measure(
    table: &[u32],
    arena: &[u8],
    counters: Counters,
    lengths: &[u32],
    store: &[u32],
) -> WriteNext
    requires { Lengths (contents table.now arena.now counters) lengths.now
        × KnownRows (contents table.now arena.now counters) store.now }
    ensures { result ≡ record {
      used = length (text_of (all_lines (contents table.now arena.now counters) store.now));
      left = left_out (all_lines (contents table.now arena.now counters) store.now);
    } }
{
    let mut used = 0;
    let mut left = 0;
    for j in 0..store.len() / STORE_WIDTH {
        match line_length(table, arena, counters, lengths, row(store, j)) {
            Some(n) => used += n,
            None => left += 1,
        }
    }
    WriteNext { used, left }
}

// Writes the line of a triple that is not left out, with its end.
fn put_line(
    table: &[u32],
    arena: &[u8],
    counters: Counters,
    t: Triple,
    page: &mut [u8],
    at: usize,
) -> usize
    requires { LineFits (contents table.now arena.now counters) (triple_of t) at page.old }
    ensures { Wrote page.old at
        (ended_line (line_text (terms_of (contents table.now arena.now counters) (triple_of t))))
        page.new result }
{
    let n = put_term(table, arena, counters, t.s, &mut *page, at);
    page[n] = b' ';
    let m = put_term(table, arena, counters, t.p, &mut *page, n + 1);
    page[m] = b' ';
    let e = put_term(table, arena, counters, t.o, &mut *page, m + 1);
    page[e] = b' ';
    page[e + 1] = b'.';
    page[e + 2] = b'\n';
    e + 3
}

// Writes the lines of all rows that are not left out, and answers the place after them.
pub fn put_lines(
    table: &[u32],
    arena: &[u8],
    counters: Counters,
    lengths: &[u32],
    store: &[u32],
    page: &mut [u8],
) -> usize
    requires { AllFit (contents table.now arena.now counters) lengths.now store.now page.old }
    ensures { Wrote page.old 0
        (text_of (all_lines (contents table.now arena.now counters) store.now))
        page.new result }
{
    let mut at = 0;
    for j in 0..store.len() / STORE_WIDTH {
        let t = row(store, j);
        if line_length(table, arena, counters, lengths, t).is_some() {
            at = put_line(table, arena, counters, t, &mut *page, at);
        }
    }
    at
}
