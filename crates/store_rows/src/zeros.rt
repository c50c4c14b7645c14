// Rows that have an id 0, taken out.
ghost use Rattle.std.specs.Prelude.{◌≡◌, ◌*◌, ◌≤◌, length};
ghost use Rattle.common.specs.Values.{triple_of};
ghost use Rattle.common.specs.Triples.{no_zero};
ghost use Rattle.store_rows.specs.Rows.{width};
ghost use Rattle.store_rows.specs.Zeros.{Kept};

use crate::store::{put_row, whole_row};
use common::Triple;

// Whether no id of t is 0.
pub fn no_zero(t: Triple) -> bool
    ensures { result ≡ no_zero (triple_of t) }
{
    t.s.0 != 0 && t.p.0 != 0 && t.o.0 != 0
}

// Takes the rows that have an id 0 out of the first n, and answers how many are left. Their order is kept.
pub fn remove_zero_rows(store: &mut [u32], n: usize) -> usize
    requires { width * n ≤ length store.old }
    ensures { Kept n store.old result store.new }
{
    let mut kept = 0;
    for i in 0..n {
        let r = whole_row(&*store, i);
        if no_zero(r.it) {
            put_row(&mut *store, kept, r);
            kept += 1;
        }
    }
    kept
}
