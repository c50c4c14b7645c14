// Starts in buffers of any length.
ghost use Rattle.std.specs.Prelude.{◌≡◌};
ghost use Rattle.dictionary_layout.specs.Layout.{dict};
ghost use Rattle.dictionary_layout.specs.Calls.{start_gives, put_result, lookup_gives};
ghost use Rattle.dictionary_layout.specs.Values.{contents};
ghost use Rattle.trial_start.specs.Starts.{kept, counted, started, refused, number_is, is_put, is_b0, finds, said, said_in, said_of};

use common::Id;
use dictionary_index::{Counters, PutNext, is_valid, lookup, put_by_value, start};

// What the buffers hold beforehand.
const MARK: u32 = 5;

const MARK_BYTE: u8 = 5;

fn is_table_kept(table: &[u32]) -> bool
    ensures { result ≡ kept table.now }
{
    table.iter().all(|number| *number == MARK)
}

fn is_arena_kept(arena: &[u8]) -> bool
    ensures { result ≡ kept arena.now }
{
    arena.iter().all(|byte| *byte == MARK_BYTE)
}

fn are_counters(counters: Counters, terms: u32, used: u32) -> bool
    ensures { result ≡ counted counters.terms counters.used terms used }
{
    counters.terms == terms && counters.used == used
}

// Whether a start left a dictionary.
fn is_started(table: &[u32], arena: &[u8], counters: Counters) -> bool
    ensures { result ≡ started (contents table.now arena.now counters) }
{
    are_counters(counters, 31, 1325) && is_valid(table, arena, counters)
}

// Whether a start left the buffers as they were.
fn is_refused(table: &[u32], arena: &[u8]) -> bool
    ensures { result ≡ refused (dict table.now arena.now 0 0) }
{
    is_table_kept(table) && is_arena_kept(arena)
}

// Whether a start gives the number: a refused one leaves both buffers, an accepted one a dictionary.
#[tactic(auto, unfolding(crate::specs::Starts::number_is))]
fn gives_number(table: &mut [u32], arena: &mut [u8], number: u32) -> bool
    ensures { result ≡ number_is number (start_gives table.old arena.old) }
{
    match start(table, arena) {
        Ok(counters) => number == 0 && is_started(table, arena, counters),
        Err(refusal) => number == refusal.number() && is_refused(table, arena),
    }
}

// Whether the blank node b0 was put, as the first term after the start's.
fn is_first(next: PutNext, table: &[u32], arena: &[u8]) -> bool
    ensures { result ≡ is_put (put_result 0 next.id.0 (contents table.now arena.now next.counters)) }
{
    next.id == Id(31) && are_counters(next.counters, 32, 1327)
}

// Whether the term of id 31 is the blank node b0.
fn is_found(table: &[u32], arena: &[u8], counters: Counters) -> bool
    ensures { result ≡ is_b0 (lookup_gives (contents table.now arena.now counters) 31) }
{
    let mut number: u32 = 0;
    let mut kind: u32 = 0;
    let part = lookup(table, arena, counters, Id(31), &mut number, &mut kind);
    number == 0 && kind == 2 && part == b"b0".as_slice()
}

// Whether a term that is put after a start is found again.
#[tactic(auto, unfolding(crate::specs::Starts::finds))]
fn finds_term(table: &mut [u32], arena: &mut [u8]) -> bool
    ensures { result ≡ finds (start_gives table.old arena.old) }
{
    let Ok(counters) = start(table, arena) else {
        return false;
    };
    let Ok(next) = put_by_value(table, arena, counters, 2, b"b0") else {
        return false;
    };
    is_first(next, table, arena) && is_found(table, arena, next.counters)
}

// With `finds` a term is put and looked up too.
#[tactic(auto, unfolding(crate::specs::Starts::said))]
fn starts_lent(table: &mut [u32], arena: &mut [u8], number: u32, finds: bool) -> bool
    ensures { result ≡ said finds number (start_gives table.old arena.old) }
{
    if finds {
        finds_term(table, arena)
    } else {
        gives_number(table, arena, number)
    }
}

// The same in the first t numbers and the first a bytes.
#[tactic(auto, unfolding(crate::specs::Starts::said_in))]
fn starts_in(
    table: &mut [u32],
    arena: &mut [u8],
    t: usize,
    a: usize,
    number: u32,
    finds: bool,
) -> bool
    ensures { result ≡ said_in table.old arena.old t a number finds }
{
    t <= table.len()
        && a <= arena.len()
        && starts_lent(&mut table[..t], &mut arena[..a], number, finds)
}

// Whether a start in a table of t numbers and an arena of a bytes gives the number.
pub fn starts(t: usize, a: usize, number: u32, finds: bool) -> bool
    ensures { result ≡ said_of 262208 1048577 t a number finds }
{
    let mut table = [MARK; 262208];
    let mut arena = [MARK_BYTE; 1048577];
    starts_in(&mut table, &mut arena, t, a, number, finds)
}
