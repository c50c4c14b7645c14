// Run, with numbers lent for all its buffers but the arena.
ghost use Rattle.std.specs.Prelude.{◌≡◌, T};
ghost use Rattle.dictionary_layout.specs.Layout.{dict};
ghost use Rattle.dictionary_layout.specs.Values.{contents};
ghost use Rattle.driver_refusals.specs.Lent.{lent};
ghost use Rattle.driver_run.specs.Values.{run_left};
ghost use Rattle.edge_bytes.specs.Bytes.{changes, left_bytes, cleared};
ghost use Rattle.edge_c.specs.Calls.{run_bytes_give};
ghost use Rattle.edge_c.specs.Forwarded.{ForwardedAll, Enough, Roomy};

use crate::sizes::{FINDINGS, LOAD, LONGER_LOAD, STORE, WORK};
use common::{LOAD_WIDTH, TABLE_LIMIT};
use dictionary_index::Counters;
use driver_run::{RunNext, run};
use edge_bytes::{clear_back, how_many, number_of_answer, read_numbers, write_back};

// Writes the numbers that a run, an opening call or a pass left back into their buffers, and zeros the list work buffer, unless its answer
// says that it changed none.
pub fn write_all(
    answer: u32,
    t: &[u32],
    s: &[u32],
    f: &[u32],
    table: &mut [u8],
    store: &mut [u8],
    findings: &mut [u8],
    work: &mut [u8],
)
    requires { T (changes answer) → Roomy t.now s.now f.now table.old store.old findings.old }
    ensures { (table.new ≡ left_bytes answer table.old t.now)
        × (store.new ≡ left_bytes answer store.old s.now)
        × (findings.new ≡ left_bytes answer findings.old f.now)
        × (work.new ≡ cleared answer work.old) }
{
    write_back(answer, t, table);
    write_back(answer, s, store);
    write_back(answer, f, findings);
    clear_back(answer, work);
}

// Run, with as many numbers as it is passed. Of store, findings and list work buffer only the lengths count: no run reads them.
fn run_on(
    t: &mut [u32],
    l: &mut [u32],
    s: &mut [u32],
    f: &mut [u32],
    w: &mut [u32],
    table: &mut [u8],
    arena: &mut [u8],
    counters: Counters,
    load: &[u8],
    store: &mut [u8],
    findings: &mut [u8],
    work: &mut [u8],
) -> RunNext
    requires { ForwardedAll t.old (lent l.old s.old f.old w.old) table.old
        (lent load.now store.old findings.old work.old) }
    ensures { run_left result table.new arena.new store.new findings.new work.new
        ≡ run_bytes_give (contents table.old arena.old counters)
        (lent load.now store.old findings.old work.old) }
{
    read_numbers(&*table, &mut *t);
    read_numbers(load, &mut *l);
    let next = run(&mut *t, arena, counters, &*l, &mut *s, &mut *f, w);
    write_all(
        number_of_answer(&next.answer),
        &*t,
        &*s,
        &*f,
        table,
        store,
        findings,
        work,
    );
    next
}

// Run, with numbers that suffice for all buffers.
pub fn run_in(
    t: &mut [u32],
    l: &mut [u32],
    s: &mut [u32],
    f: &mut [u32],
    w: &mut [u32],
    table: &mut [u8],
    arena: &mut [u8],
    terms: u32,
    used: u32,
    load: &[u8],
    store: &mut [u8],
    findings: &mut [u8],
    work: &mut [u8],
) -> RunNext
    requires { Enough t.old (lent l.old s.old f.old w.old) }
    ensures { run_left result table.new arena.new store.new findings.new work.new
        ≡ run_bytes_give (dict table.old arena.old terms used)
        (lent load.now store.old findings.old work.old) }
{
    let counters = Counters { terms, used };
    let k1 = how_many(table.len(), TABLE_LIMIT, 1);
    let k2 = how_many(load.len(), LOAD, LONGER_LOAD + load.len() / 4 % LOAD_WIDTH);
    let k3 = how_many(store.len(), STORE, 1);
    let k4 = how_many(findings.len(), FINDINGS, 1);
    let k5 = how_many(work.len(), WORK, WORK);
    run_on(
        &mut t[..k1],
        &mut l[..k2],
        &mut s[..k3],
        &mut f[..k4],
        &mut w[..k5],
        table,
        arena,
        counters,
        load,
        store,
        findings,
        work,
    )
}
