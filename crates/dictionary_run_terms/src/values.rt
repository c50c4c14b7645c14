// What the put of a run's terms answers.
use common::Id;
use dictionary_layout::Counters;

// The ids of the three terms that a run puts.
#[derive(Clone, Copy)]
pub struct RunTermIds {
    pub property: Id,
    pub membership: Id,
    pub member: Id,
}

// Their ids, and the counters as they are afterwards.
#[derive(Clone, Copy)]
pub struct RunTerms {
    pub ids: RunTermIds,
    pub counters: Counters,
}
