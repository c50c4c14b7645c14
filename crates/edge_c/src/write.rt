// Write, with numbers lent for the table and the store.
ghost use Rattle.std.specs.Prelude.{◌≡◌, length};
ghost use Rattle.dictionary_layout.specs.Layout.{dict};
ghost use Rattle.dictionary_layout.specs.Values.{contents};
ghost use Rattle.driver_write.specs.Values.{write_left};
ghost use Rattle.edge_c.specs.Calls.{write_bytes_give};
ghost use Rattle.edge_c.specs.Forwarded.{store_forwarded, ForwardedStore, EnoughStore, RowsRead};

use crate::sizes::STORE;
use common::{Refusal, STORE_WIDTH, TABLE_LIMIT};
use dictionary_index::Counters;
use driver_write::{WriteNext, write};
use edge_bytes::{how_many, read_numbers};

// Reads the numbers of a store's first rows, which are all that a write looks at; where there are not so many rows it reads none.
fn read_rows(store: &[u8], triples: u32, s: &mut [u32])
    requires { length s.old ≡ store_forwarded (length store.now) }
    ensures { RowsRead store.now triples s.new }
{
    let n = STORE_WIDTH * (triples as usize);
    if s.len() < n {
        return;
    }
    read_numbers(&store[..4 * n], &mut s[..n]);
}

// Write, with as many numbers as it is passed.
fn write_on(
    t: &mut [u32],
    s: &mut [u32],
    table: &[u8],
    arena: &[u8],
    counters: Counters,
    store: &[u8],
    triples: u32,
    page: &mut [u8],
) -> Result<WriteNext, Refusal>
    requires { ForwardedStore t.old s.old table.now store.now }
    ensures { write_left result page.new
        ≡ write_bytes_give (contents table.now arena.now counters) store.now triples
        page.old }
{
    read_numbers(table, &mut *t);
    read_rows(store, triples, &mut *s);
    write(&*t, arena, counters, &*s, triples, page)
}

// Write, with numbers that suffice for every table and every store.
pub fn write_in(
    t: &mut [u32],
    s: &mut [u32],
    table: &[u8],
    arena: &[u8],
    terms: u32,
    used: u32,
    store: &[u8],
    triples: u32,
    page: &mut [u8],
) -> Result<WriteNext, Refusal>
    requires { EnoughStore t.old s.old }
    ensures { write_left result page.new
        ≡ write_bytes_give (dict table.now arena.now terms used) store.now triples
        page.old }
{
    let counters = Counters { terms, used };
    let k1 = how_many(table.len(), TABLE_LIMIT, 1);
    let k2 = how_many(store.len(), STORE, 1);
    write_on(
        &mut t[..k1],
        &mut s[..k2],
        table,
        arena,
        counters,
        store,
        triples,
        page,
    )
}
