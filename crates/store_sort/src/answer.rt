// What stands in the store at the end: the rows in order, without those that have an id 0, then zeros.
ghost use Rattle.std.specs.Prelude.{◌≡◌};
ghost use Rattle.common.specs.Rows.{flat_rows, filled};
ghost use Rattle.store_rows.specs.Rows.{sorted_rows};
ghost use Rattle.store_sort.specs.Answer.{DistinctRows, Answer};

use crate::sort::sort_rows;
use common::{STORE_WIDTH, clear_from};
use store_rows::remove_zero_rows;

// Rows are ordered by their triples alone, their first three numbers.
pub const TRIPLE: usize = 3;

// Leaves the answer of the first n rows in the store, and answers its number of triples.
pub fn leave_answer(store: &mut [u32], n: usize) -> usize
    requires { DistinctRows n store.old }
    ensures { Answer n store.old result store.new }
{
    sort_rows(&mut *store, STORE_WIDTH, TRIPLE, n);
    let kept = remove_zero_rows(&mut *store, n);
    clear_from(&mut *store, STORE_WIDTH * kept);
    kept
}

// Leaves the first n rows in order in the store, those with an id 0 too, then zeros.
pub fn leave_rows(store: &mut [u32], n: usize)
    requires { DistinctRows n store.old }
    ensures { store.new ≡ filled store.old (flat_rows (sorted_rows n store.old)) }
{
    sort_rows(&mut *store, STORE_WIDTH, TRIPLE, n);
    clear_from(&mut *store, STORE_WIDTH * n);
}
