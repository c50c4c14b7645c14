// A line's triple: its terms are put, and its ids go behind the triples that the load holds.
ghost use Rattle.std.specs.Prelude.{◌≡◌, None};
ghost use Rattle.common.specs.Values.{triple_of};
ghost use Rattle.dictionary_layout.specs.Values.{contents};
ghost use Rattle.dictionary_puts.specs.Indexed.{Indexed};
ghost use Rattle.driver_read.specs.Lines.{PutsTerms, Rows, Adds, Between, said_comes, ComesTo};
ghost use Rattle.ntriples.specs.Grammar.{says};
ghost use Rattle.ntriples_lines.specs.Promises.{Ordered, terms_at};
ghost use Rattle.ntriples.specs.Reading.{all_short};

use crate::values::{LineIds, ReadNext, read_next};
use common::{LOAD_LIMIT, LOAD_WIDTH, TERM_LIMIT, Triple};
use dictionary_index::Counters;
use dictionary_puts::put_indexed;
use ntriples_lines::LineTerms;

// Whether no term of a line is too long.
fn all_short(t: LineTerms, out: &[u8]) -> bool
    requires { Ordered t out.now }
    ensures { result ≡ all_short (terms_at t out.now) }
{
    t.subject_end <= TERM_LIMIT
        && t.predicate_end - t.subject_end <= TERM_LIMIT
        && t.object_end - t.predicate_end <= TERM_LIMIT
}

// Terms one of which has no room.
fn no_room(counters: Counters) -> LineIds
    ensures { result ≡ record { triple = None; counters = counters } }
{
    LineIds {
        triple: None,
        counters,
    }
}

// Puts the terms of a line, subject first, up to the first that has no room.
fn put_terms(
    table: &mut [u32],
    arena: &mut [u8],
    hash: &mut [u32],
    counters: Counters,
    out: &[u8],
    t: LineTerms,
) -> LineIds
    requires { Indexed (contents table.old arena.old counters) hash.old × Ordered t out.now }
    ensures { PutsTerms (contents table.old arena.old counters) (terms_at t out.now)
        table.new arena.new hash.new result }
{
    let s_end = t.subject_end;
    let p_end = t.predicate_end;
    let o_end = t.object_end;
    let Ok(s) = put_indexed(
        &mut *table,
        &mut *arena,
        counters,
        &mut *hash,
        t.subject_kind,
        &out[..s_end],
    ) else {
        return no_room(counters);
    };
    let c = s.counters;
    let Ok(p) = put_indexed(
        &mut *table,
        &mut *arena,
        c,
        &mut *hash,
        1,
        &out[s_end..p_end],
    ) else {
        return no_room(c);
    };
    let c = p.counters;
    let Ok(o) = put_indexed(
        &mut *table,
        &mut *arena,
        c,
        &mut *hash,
        t.object_kind,
        &out[p_end..o_end],
    ) else {
        return no_room(c);
    };
    let triple = Triple {
        s: s.id,
        p: p.id,
        o: o.id,
    };
    LineIds {
        triple: Some(triple),
        counters: o.counters,
    }
}

// Writes a triple behind the first `count` of a load, where it has room for one more.
fn add_triple(load: &mut [u32], count: u32, t: Triple) -> bool
    requires { Rows load.old count }
    ensures { Adds load.old count (triple_of t) result load.new }
{
    let n = count as usize;
    let at = LOAD_WIDTH * n;
    if LOAD_LIMIT <= n || load.len() < at + LOAD_WIDTH {
        return false;
    }
    load[at] = t.s.0;
    load[at + 1] = t.p.0;
    load[at + 2] = t.o.0;
    true
}

// A line that says a triple.
pub fn read_triple(
    table: &mut [u32],
    arena: &mut [u8],
    hash: &mut [u32],
    load: &mut [u32],
    next: ReadNext,
    out: &[u8],
    t: LineTerms,
) -> ReadNext
    requires { Between table.old arena.old hash.old load.old next × Ordered t out.now }
    ensures { ComesTo (said_comes (contents table.old arena.old next.counters) load.old
        next.count (says (terms_at t out.now)))
        (contents table.old arena.old next.counters)
        table.new arena.new hash.new load.new result }
{
    let c = next.counters;
    if !all_short(t, out) {
        return read_next(11, next.count, c);
    }
    let ids = put_terms(&mut *table, &mut *arena, &mut *hash, c, out, t);
    let c = ids.counters;
    let Some(triple) = ids.triple else {
        return read_next(7, next.count, c);
    };
    if add_triple(&mut *load, next.count, triple) {
        return read_next(0, next.count + 1, c);
    }
    read_next(3, next.count, c)
}
