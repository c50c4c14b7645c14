// Read, with numbers lent for the table and the load.
ghost use Rattle.std.specs.Prelude.{◌≡◌, ◌*◌, ◌≤◌, T, length};
ghost use Rattle.common.specs.Rows.{filled};
ghost use Rattle.dictionary_layout.specs.Layout.{dict};
ghost use Rattle.dictionary_layout.specs.Values.{contents};
ghost use Rattle.driver_read.specs.Values.{read_left};
ghost use Rattle.edge_bytes.specs.Bytes.{bytes_of};
ghost use Rattle.edge_c.specs.Calls.{changes_load, read_bytes_give};
ghost use Rattle.edge_c.specs.Forwarded.{ForwardedBoth, EnoughBoth, front_load};

use crate::sizes::LOAD;
use common::{LOAD_WIDTH, TABLE_LIMIT};
use dictionary_index::Counters;
use dictionary_layout::bytes::clear_bytes;
use driver_read::{ReadNext, read};
use edge_bytes::{how_many, read_numbers, write_back, write_numbers};

// Writes numbers to the front of a buffer, and zeros behind them.
fn write_front(numbers: &[u32], bytes: &mut [u8])
    requires { 4 * length numbers.now ≤ length bytes.old }
    ensures { bytes.new ≡ filled bytes.old (bytes_of numbers.now) }
{
    clear_bytes(&mut *bytes);
    let n = 4 * numbers.len();
    write_numbers(numbers, &mut bytes[..n]);
}

// Writes the numbers that a read left in its load back, unless its answer says that it left the load as it was.
fn write_load(answer: u32, numbers: &[u32], load: &mut [u8])
    requires { T (changes_load answer) → 4 * length numbers.now ≤ length load.old }
    ensures { load.new ≡ front_load answer load.old numbers.now }
{
    if answer == 1 {
        return;
    }
    if answer == 2 {
        return;
    }
    write_front(numbers, load);
}

// Read, with as many numbers as it is passed. Of the load only the length counts: no read reads it.
fn read_on(
    t: &mut [u32],
    l: &mut [u32],
    table: &mut [u8],
    arena: &mut [u8],
    counters: Counters,
    file: &[u8],
    load: &mut [u8],
) -> ReadNext
    requires { ForwardedBoth t.old l.old table.old load.old }
    ensures { read_left result table.new arena.new load.new
        ≡ read_bytes_give (contents table.old arena.old counters) load.old file.now }
{
    read_numbers(&*table, &mut *t);
    let next = read(&mut *t, arena, counters, file, &mut *l);
    write_back(next.number, &*t, table);
    write_load(next.number, &*l, load);
    next
}

// Read, with numbers that suffice for both buffers.
pub fn read_in(
    t: &mut [u32],
    l: &mut [u32],
    table: &mut [u8],
    arena: &mut [u8],
    terms: u32,
    used: u32,
    file: &[u8],
    load: &mut [u8],
) -> ReadNext
    requires { EnoughBoth t.old l.old }
    ensures { read_left result table.new arena.new load.new
        ≡ read_bytes_give (dict table.old arena.old terms used) load.old file.now }
{
    let counters = Counters { terms, used };
    let k1 = how_many(table.len(), TABLE_LIMIT, 1);
    let k2 = how_many(load.len(), LOAD, LOAD + load.len() / 4 % LOAD_WIDTH);
    read_on(
        &mut t[..k1],
        &mut l[..k2],
        table,
        arena,
        counters,
        file,
        load,
    )
}
