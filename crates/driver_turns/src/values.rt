// What an opening call and a pass answer, with the counters.
use common::Refusal;
use dictionary_index::Counters;
use driver_step::TurnAnswer;

// The answer, and the counters as they are afterwards.
#[derive(Clone, Copy)]
pub struct TurnNext {
    pub answer: Result<TurnAnswer, Refusal>,
    pub counters: Counters,
}
