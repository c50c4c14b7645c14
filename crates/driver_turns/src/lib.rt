// Closing in turns, REFERENCE 3.6: the opening call and the pass, for all inputs.
#![tactic(auto)]

mod values; // values.rt: what they answer, with the counters

ghost use Rattle.std.specs.Prelude.{◌≡◌, eqb};
ghost use Rattle.common.specs.Refusals.{answer_number};
ghost use Rattle.dictionary_layout.specs.Values.{contents};
ghost use Rattle.dictionary_run_terms.specs.Calls.{run_terms_left};
ghost use Rattle.driver_refusals.specs.Lent.{lent};
ghost use Rattle.driver_turns.specs.Admission.{admission};
ghost use Rattle.driver_turns.specs.Turns.{open_gives, pass_gives};
ghost use Rattle.driver_turns.specs.Values.{turn_leaves};

use common::Refusal;
use dictionary_index::{Counters, is_valid};
use dictionary_puts::retract;
use dictionary_run_terms::{RunTerms, put_run_terms};
use driver_refusals::run_refusal;
pub use driver_step::TurnAnswer;
use driver_step::{open_load, pass_load};
pub use values::TurnNext;

// A run's refusals 1 to 7, in order; where none is met, the run's three terms are put.
fn admit(
    table: &mut [u32],
    arena: &mut [u8],
    counters: Counters,
    load: &[u32],
    store: &[u32],
    findings: &[u32],
    work: &[u32],
) -> Result<RunTerms, Refusal>
    ensures { run_terms_left counters result table.new arena.new
        ≡ admission (contents table.old arena.old counters)
        (lent load.now store.now findings.now work.now) }
{
    if !is_valid(&*table, &*arena, counters) {
        return Err(Refusal::BrokenDictionary);
    }
    run_refusal(load, store, findings, work, counters.terms)?;
    put_run_terms(table, arena, counters)
}

// A refusal that changes nothing.
fn refused_next(refusal: Refusal, counters: Counters) -> TurnNext
    ensures { result ≡ record { answer = Err refusal; counters = counters } }
{
    TurnNext {
        answer: Err(refusal),
        counters,
    }
}

// Opens a run: the starting triples in the store.
pub fn open(
    table: &mut [u32],
    arena: &mut [u8],
    counters: Counters,
    load: &[u32],
    store: &mut [u32],
    findings: &mut [u32],
    work: &mut [u32],
) -> TurnNext
    ensures { turn_leaves result table.new arena.new
        (lent load.now store.new findings.new work.new)
        ≡ open_gives (contents table.old arena.old counters)
        (lent load.now store.old findings.old work.old) }
{
    let admitted = admit(
        &mut *table,
        &mut *arena,
        counters,
        load,
        &*store,
        &*findings,
        &*work,
    );
    match admitted {
        Err(refusal) => refused_next(refusal, counters),
        Ok(terms) => {
            let next = terms.counters;
            let answer = open_load(
                load,
                &*table,
                &*arena,
                terms,
                &mut *store,
                &mut *findings,
                &mut *work,
            );
            TurnNext {
                answer,
                counters: next,
            }
        }
    }
}

// Whether a pass was refused because its store cannot take it.
fn is_untaken(answer: Result<TurnAnswer, Refusal>) -> bool
    ensures { result ≡ eqb (answer_number answer) 4 }
{
    match answer {
        Err(refusal) => refusal.number() == Refusal::IllSizedStore.number(),
        Ok(_) => false,
    }
}

// One pass of a run. A store that cannot take it is refused with 4, and the three terms are taken back, the last first.
pub fn pass(
    table: &mut [u32],
    arena: &mut [u8],
    counters: Counters,
    load: &[u32],
    store: &mut [u32],
    findings: &mut [u32],
    work: &mut [u32],
) -> TurnNext
    ensures { turn_leaves result table.new arena.new
        (lent load.now store.new findings.new work.new)
        ≡ pass_gives (contents table.old arena.old counters)
        (lent load.now store.old findings.old work.old) }
{
    let admitted = admit(
        &mut *table,
        &mut *arena,
        counters,
        load,
        &*store,
        &*findings,
        &*work,
    );
    match admitted {
        Err(refusal) => refused_next(refusal, counters),
        Ok(terms) => {
            let put = terms.counters;
            let answer = pass_load(
                load,
                &*table,
                &*arena,
                terms,
                &mut *store,
                &mut *findings,
                &mut *work,
            );
            if is_untaken(answer) {
                let left = retract(table, arena, put, counters.terms);
                return TurnNext {
                    answer,
                    counters: left,
                };
            }
            TurnNext {
                answer,
                counters: put,
            }
        }
    }
}
