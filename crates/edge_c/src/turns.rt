// Open and pass, with numbers lent for all their buffers but the arena.
ghost use Rattle.std.specs.Prelude.{◌≡◌};
ghost use Rattle.dictionary_layout.specs.Layout.{dict};
ghost use Rattle.dictionary_layout.specs.Values.{contents};
ghost use Rattle.driver_refusals.specs.Lent.{lent};
ghost use Rattle.driver_turns.specs.Turns.{past, turn_gives};
ghost use Rattle.driver_turns.specs.Values.{turn_leaves, turn_left};
ghost use Rattle.edge_c.specs.Calls.{turn_bytes_give};
ghost use Rattle.edge_c.specs.Forwarded.{ForwardedAll, Enough};

use crate::run::write_all;
use crate::sizes::{FINDINGS, LOAD, LONGER_LOAD, STORE, WORK};
use common::{LOAD_WIDTH, TABLE_LIMIT};
use dictionary_index::Counters;
use driver_turns::{TurnNext, open, pass};
use edge_bytes::{how_many, number_of_answer, read_numbers};

// A pass, or else an opening call, over numbers.
fn turn(
    passes: bool,
    t: &mut [u32],
    arena: &mut [u8],
    counters: Counters,
    l: &[u32],
    s: &mut [u32],
    f: &mut [u32],
    w: &mut [u32],
) -> TurnNext
    ensures { turn_leaves result t.new arena.new
        (lent l.now s.new f.new w.new)
        ≡ turn_gives (past passes) (contents t.old arena.old counters)
        (lent l.now s.old f.old w.old) }
{
    if passes {
        return pass(t, arena, counters, l, s, f, w);
    }
    open(t, arena, counters, l, s, f, w)
}

// The same, with as many numbers as it is passed. Of findings and list work buffer only the lengths count: neither call reads them.
fn turn_on(
    passes: bool,
    t: &mut [u32],
    l: &mut [u32],
    s: &mut [u32],
    f: &mut [u32],
    w: &mut [u32],
    table: &mut [u8],
    arena: &mut [u8],
    counters: Counters,
    load: &[u8],
    store: &mut [u8],
    findings: &mut [u8],
    work: &mut [u8],
) -> TurnNext
    requires { ForwardedAll t.old (lent l.old s.old f.old w.old) table.old
        (lent load.now store.old findings.old work.old) }
    ensures { turn_left result table.new arena.new store.new findings.new work.new
        ≡ turn_bytes_give (past passes) (contents table.old arena.old counters)
        (lent load.now store.old findings.old work.old) }
{
    read_numbers(&*table, &mut *t);
    read_numbers(load, &mut *l);
    read_numbers(&*store, &mut *s);
    let next = turn(passes, &mut *t, arena, counters, &*l, &mut *s, &mut *f, w);
    write_all(
        number_of_answer(&next.answer),
        &*t,
        &*s,
        &*f,
        table,
        store,
        findings,
        work,
    );
    next
}

// The same, with numbers that suffice for all buffers.
pub fn turn_in(
    passes: bool,
    t: &mut [u32],
    l: &mut [u32],
    s: &mut [u32],
    f: &mut [u32],
    w: &mut [u32],
    table: &mut [u8],
    arena: &mut [u8],
    terms: u32,
    used: u32,
    load: &[u8],
    store: &mut [u8],
    findings: &mut [u8],
    work: &mut [u8],
) -> TurnNext
    requires { Enough t.old (lent l.old s.old f.old w.old) }
    ensures { turn_left result table.new arena.new store.new findings.new work.new
        ≡ turn_bytes_give (past passes) (dict table.old arena.old terms used)
        (lent load.now store.old findings.old work.old) }
{
    let counters = Counters { terms, used };
    let k1 = how_many(table.len(), TABLE_LIMIT, 1);
    let k2 = how_many(load.len(), LOAD, LONGER_LOAD + load.len() / 4 % LOAD_WIDTH);
    let k3 = how_many(store.len(), STORE, 1);
    let k4 = how_many(findings.len(), FINDINGS, 1);
    let k5 = how_many(work.len(), WORK, WORK);
    turn_on(
        passes,
        &mut t[..k1],
        &mut l[..k2],
        &mut s[..k3],
        &mut f[..k4],
        &mut w[..k5],
        table,
        arena,
        counters,
        load,
        store,
        findings,
        work,
    )
}
