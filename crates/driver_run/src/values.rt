// What a run answers, with the counters.
use common::Refusal;
use dictionary_index::Counters;
use driver_load::RunAnswer;

// The answer, and the counters as they are afterwards.
#[derive(Clone, Copy)]
pub struct RunNext {
    pub answer: Result<RunAnswer, Refusal>,
    pub counters: Counters,
}
