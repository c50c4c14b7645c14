// What the calls answer.
use common::Id;
use dictionary_layout::Counters;

// What a put by value answers: the id of the term, and the counters as they are afterwards.
#[derive(Clone, Copy)]
pub struct PutNext {
    pub id: Id,
    pub counters: Counters,
}

// Where a term lies in the arena, and its kind.
#[derive(Clone, Copy)]
pub struct Located {
    pub number: u32,
    pub kind: u32,
    pub start: usize,
    pub end: usize,
}
