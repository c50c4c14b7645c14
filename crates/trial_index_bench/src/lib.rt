// What the measurement of crate index links: the test for a broken dictionary. The harness is harness/index_bench.
#![tactic(auto)]

ghost use Rattle.std.specs.Prelude.{◌≡◌};
ghost use Rattle.dictionary_layout.specs.Dictionary.{valid};
ghost use Rattle.dictionary_layout.specs.Layout.{dict};

use dictionary_index::{Counters, is_valid};

// Whether table, arena and counters are a dictionary's.
#[unsafe(no_mangle)]
pub extern "C" fn index_bench_is_valid(table: &[u32], arena: &[u8], terms: u32, used: u32) -> bool
    ensures { result ≡ valid (dict table.now arena.now terms used) }
{
    is_valid(table, arena, Counters { terms, used })
}
