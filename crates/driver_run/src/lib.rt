// The run, REFERENCE 3.4: from a load to the answer and its findings, for all inputs.
#![tactic(auto)]

mod values; // values.rt: what a run answers, with the counters

ghost use Rattle.std.specs.Prelude.{◌≡◌};
ghost use Rattle.dictionary_layout.specs.Values.{contents};
ghost use Rattle.driver_run.specs.Run.{run_gives};
ghost use Rattle.driver_run.specs.Values.{run_leaves};

use common::Refusal;
use dictionary_index::{Counters, is_valid};
use dictionary_run_terms::put_run_terms;
pub use driver_load::RunAnswer;
use driver_load::run_load;
use driver_refusals::run_refusal;
pub use values::RunNext;

// A refusal that changes nothing.
fn refused_run(refusal: Refusal, counters: Counters) -> RunNext
    ensures { result ≡ record { answer = Err refusal; counters = counters } }
{
    RunNext {
        answer: Err(refusal),
        counters,
    }
}

// Closes a load: the answer in the store, the findings, their counts. The counters as they are afterwards are returned.
pub fn run(
    table: &mut [u32],
    arena: &mut [u8],
    counters: Counters,
    load: &[u32],
    store: &mut [u32],
    findings: &mut [u32],
    work: &mut [u32],
) -> RunNext
    ensures { run_leaves result table.new arena.new
        (record { load = load.now; store = store.new; findings = findings.new; work = work.new })
        ≡ run_gives (contents table.old arena.old counters)
        (record { load = load.now; store = store.old; findings = findings.old; work = work.old }) }
{
    if !is_valid(&*table, &*arena, counters) {
        return refused_run(Refusal::BrokenDictionary, counters);
    }
    if let Err(refusal) = run_refusal(load, &*store, &*findings, &*work, counters.terms) {
        return refused_run(refusal, counters);
    }
    match put_run_terms(&mut *table, &mut *arena, counters) {
        Err(refusal) => refused_run(refusal, counters),
        Ok(terms) => {
            let answer = run_load(
                load,
                &*table,
                &*arena,
                terms,
                &mut *store,
                &mut *findings,
                &mut *work,
            );
            RunNext {
                answer,
                counters: terms.counters,
            }
        }
    }
}
