// What the measurements of crates rows and sort link: the sort, and appending with repeats. The harness is harness/rows_bench.
#![tactic(auto)]

ghost use Rattle.common.specs.Sizes.{store_width, finding_width};
ghost use Rattle.store_rows.specs.Store.{Good};
ghost use Rattle.store_sort.specs.Sorted.{Fits, Sorted};
ghost use Rattle.trial_rows_bench.specs.Load.{Load, Appended};

use common::{FINDING_WIDTH, STORE_WIDTH};
use store_rows::{Pass, add, load_row};
use store_sort::{TRIPLE, sort_rows};

// The pass of the triples that are appended.
const ONE_PASS: Pass = Pass {
    first: 0,
    number: 0,
};

// Rows of the store.
#[unsafe(no_mangle)]
pub extern "C" fn rows_bench_sort_triples(buf: &mut [u32], n: usize)
    requires { Fits store_width 3 n buf.old }
    ensures { Sorted store_width 3 n buf.old buf.new }
{
    sort_rows(&mut *buf, STORE_WIDTH, TRIPLE, n);
}

// Rows of findings.
#[unsafe(no_mangle)]
pub extern "C" fn rows_bench_sort_findings(buf: &mut [u32], n: usize)
    requires { Fits finding_width finding_width n buf.old }
    ensures { Sorted finding_width finding_width n buf.old buf.new }
{
    sort_rows(&mut *buf, FINDING_WIDTH, FINDING_WIDTH, n);
}

// Appends the triples of the load to a store of no rows, and answers how many it has then.
#[unsafe(no_mangle)]
pub extern "C" fn rows_bench_append(
    load: &[u32],
    store: &mut [u32],
    hash: &mut [u32],
    count: usize,
) -> usize
    requires { Good store.old hash.old 0 × Load load.now count }
    ensures { Appended load.now count store.old store.new hash.new result }
{
    let mut n = 0;
    for k in 0..count {
        let added = add(&mut *store, &mut *hash, n, ONE_PASS, 0, load_row(load, k));
        n = added.unwrap_or_else(|full| full.rows);
    }
    n
}
