// What a run refuses before it puts a term: 2 to 6, in order; 5 over the whole load before 6.
#![tactic(auto)]

ghost use Rattle.std.specs.Prelude.{◌≡◌, not, eqb, ltb};
ghost use Rattle.common.specs.Refusals.{answer_number};
ghost use Rattle.common.specs.Triples.{all};
ghost use Rattle.driver_refusals.specs.RunRefusals.{first_refusal, run_refusals};

use common::{
    FINDING_LIMIT, FINDING_WIDTH, LOAD_LIMIT, LOAD_WIDTH, RUN_TERMS, Refusal, STORE_LIMIT,
    STORE_WIDTH, WORK_WIDTH,
};

// Whether no id of the load is 0.
pub fn no_blank(load: &[u32]) -> bool
    ensures { result ≡ all (λ i. not (eqb i 0)) load.now }
{
    load.iter().all(|id| *id != 0)
}

// Whether each id of the load is below the term count.
pub fn all_known(load: &[u32], terms: u32) -> bool
    ensures { result ≡ all (λ i. ltb i terms) load.now }
{
    load.iter().all(|id| *id < terms)
}

// Why a run refuses what it is lent, if it does.
pub fn run_refusal(
    load: &[u32],
    store: &[u32],
    findings: &[u32],
    work: &[u32],
    terms: u32,
) -> Result<(), Refusal>
    ensures { answer_number result ≡ first_refusal (run_refusals terms
        (record { load = load.now; store = store.now; findings = findings.now; work = work.now })) }
{
    if load.len() % LOAD_WIDTH != 0 {
        return Err(Refusal::RaggedLoad);
    }
    if LOAD_WIDTH * LOAD_LIMIT < load.len() {
        return Err(Refusal::LoadTooLong);
    }
    if store.len() % STORE_WIDTH != 0
        || STORE_WIDTH * STORE_LIMIT < store.len()
        || findings.len() % FINDING_WIDTH != 0
        || FINDING_WIDTH * FINDING_LIMIT < findings.len()
        || work.len() < WORK_WIDTH * (terms as usize + RUN_TERMS)
    {
        return Err(Refusal::IllSizedStore);
    }
    if !no_blank(load) {
        return Err(Refusal::BlankId);
    }
    if !all_known(load, terms) {
        return Err(Refusal::UnknownTerm);
    }
    Ok(())
}
