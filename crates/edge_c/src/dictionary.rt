// Start, put and lookup, with numbers lent for the table.
ghost use Rattle.std.specs.Prelude.{◌≡◌, ◌≤◌, T, length};
ghost use Rattle.dictionary_layout.specs.Terms.{term};
ghost use Rattle.dictionary_layout.specs.Layout.{dict};
ghost use Rattle.dictionary_layout.specs.Dictionary.{valid};
ghost use Rattle.dictionary_layout.specs.Values.{contents};
ghost use Rattle.dictionary_index.specs.Values.{start_left, put_left};
ghost use Rattle.common.specs.Sizes.{table_limit};
ghost use Rattle.edge_c.specs.Forwarded.{table_forwarded};
ghost use Rattle.edge_c.specs.Calls.{read_dict, start_bytes_give, put_bytes_give, Places};
ghost use Rattle.edge_c.specs.Values.{placed};

use common::{ENTRY_WIDTH, HEADS_WIDTH, Refusal, TABLE_LIMIT};
use dictionary_index::{Counters, PutNext, is_valid, put_by_value, start};
use edge_bytes::{how_many, number_of_answer, read_numbers, write_back};

// Start, with as many numbers as it is passed. What stood in the table is not read.
fn start_on(numbers: &mut [u32], table: &mut [u8], arena: &mut [u8]) -> Result<Counters, Refusal>
    requires { length numbers.old ≡ table_forwarded (length table.old) }
    ensures { start_left result table.new arena.new ≡ start_bytes_give table.old arena.old }
{
    let started = start(&mut *numbers, arena);
    write_back(number_of_answer(&started), &*numbers, table);
    started
}

// Start, with numbers that suffice for every table.
pub fn start_in(
    numbers: &mut [u32],
    table: &mut [u8],
    arena: &mut [u8],
) -> Result<Counters, Refusal>
    requires { table_limit ≤ length numbers.old }
    ensures { start_left result table.new arena.new ≡ start_bytes_give table.old arena.old }
{
    let n = how_many(table.len(), TABLE_LIMIT, 1);
    start_on(&mut numbers[..n], table, arena)
}

// Put, with as many numbers as it is passed.
fn put_on(
    numbers: &mut [u32],
    table: &mut [u8],
    arena: &mut [u8],
    counters: Counters,
    kind: u32,
    bytes: &[u8],
) -> Result<PutNext, Refusal>
    requires { length numbers.old ≡ table_forwarded (length table.old) }
    ensures { put_left counters result table.new arena.new
        ≡ put_bytes_give (contents table.old arena.old counters) (term kind bytes.now) }
{
    read_numbers(&*table, &mut *numbers);
    let next = put_by_value(&mut *numbers, arena, counters, kind, bytes);
    write_back(number_of_answer(&next), &*numbers, table);
    next
}

// Put, with numbers that suffice for every table.
pub fn put_in(
    numbers: &mut [u32],
    table: &mut [u8],
    arena: &mut [u8],
    terms: u32,
    used: u32,
    kind: u32,
    bytes: &[u8],
) -> Result<PutNext, Refusal>
    requires { table_limit ≤ length numbers.old }
    ensures { put_left (record { terms = terms; used = used }) result table.new arena.new
        ≡ put_bytes_give (dict table.old arena.old terms used) (term kind bytes.now) }
{
    let counters = Counters { terms, used };
    let n = how_many(table.len(), TABLE_LIMIT, 1);
    put_on(&mut numbers[..n], table, arena, counters, kind, bytes)
}

// Where a term's bytes lie in the arena, with its kind and the refusal's number.
#[derive(Clone, Copy)]
pub struct TermPlace {
    pub number: u32,
    pub kind: u32,
    pub begin: u32,
    pub len: u32,
}

// The place that the entry of an id names, in a dictionary that is not broken.
fn place_of(numbers: &[u32], arena: &[u8], counters: Counters, id: u32) -> TermPlace
    requires { T (valid (contents numbers.now arena.now counters)) }
    ensures { Places (contents numbers.now arena.now counters) id (placed result) }
{
    if counters.terms <= id {
        return TermPlace {
            number: 12,
            kind: 0,
            begin: 0,
            len: 0,
        };
    }
    let at = HEADS_WIDTH + ENTRY_WIDTH * (id as usize);
    TermPlace {
        number: 0,
        kind: numbers[at + 2],
        begin: numbers[at],
        len: numbers[at + 1],
    }
}

// Lookup, with as many numbers as it is passed.
fn lookup_on(
    numbers: &mut [u32],
    table: &[u8],
    arena: &[u8],
    counters: Counters,
    id: u32,
) -> TermPlace
    requires { length numbers.old ≡ table_forwarded (length table.now) }
    ensures { Places (read_dict (contents table.now arena.now counters)) id (placed result) }
{
    read_numbers(table, &mut *numbers);
    if is_valid(&*numbers, arena, counters) {
        return place_of(&*numbers, arena, counters, id);
    }
    TermPlace {
        number: 1,
        kind: 0,
        begin: 0,
        len: 0,
    }
}

// Lookup, with numbers that suffice for every table.
pub fn lookup_in(
    numbers: &mut [u32],
    table: &[u8],
    arena: &[u8],
    terms: u32,
    used: u32,
    id: u32,
) -> TermPlace
    requires { table_limit ≤ length numbers.old }
    ensures { Places (read_dict (dict table.now arena.now terms used)) id (placed result) }
{
    let counters = Counters { terms, used };
    let n = how_many(table.len(), TABLE_LIMIT, 1);
    lookup_on(&mut numbers[..n], table, arena, counters, id)
}
