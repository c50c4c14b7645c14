// What reading a file answers, and what a line's terms come to.
ghost use Rattle.std.specs.Prelude.{◌≡◌};

use common::Triple;
use dictionary_index::Counters;

// The refusal's number, the count of the triples, and the counters as they are afterwards.
#[derive(Clone, Copy)]
pub struct ReadNext {
    pub number: u32,
    pub count: u32,
    pub counters: Counters,
}

// The ids of a line's terms, none where one of them has no room; and the counters as they are afterwards.
#[derive(Clone, Copy)]
pub struct LineIds {
    pub triple: Option<Triple>,
    pub counters: Counters,
}

// An answer with these numbers.
pub fn read_next(number: u32, count: u32, counters: Counters) -> ReadNext
    ensures { result ≡ record { number = number; count = count; counters = counters } }
{
    ReadNext {
        number,
        count,
        counters,
    }
}
