// The two calls that are lent structs, for callers that have the structs by value.
ghost use Rattle.std.specs.Prelude.{◌≡◌, ◌≤◌, take, drop};
ghost use Rattle.common.specs.Refusals.{answer_number};
ghost use Rattle.dictionary_layout.specs.Terms.{term};
ghost use Rattle.dictionary_layout.specs.Calls.{put_gives};
ghost use Rattle.dictionary_layout.specs.Values.{contents};
ghost use Rattle.dictionary_index.specs.Values.{put_lent};
ghost use Rattle.edge_records.specs.Records.{records_result, records_give};
ghost use Rattle.trial_lent.specs.Filled.{filled_of};

use common::{Id, Refusal};
use dictionary_index::{Counters, put};
use edge_records::{FindingRecord, findings_as_records};

// The answer, and the counters afterwards.
#[derive(Clone, Copy)]
pub struct Put {
    pub answer: Result<Id, Refusal>,
    pub counters: Counters,
}

// A put that is lent a copy of the counters, which is returned.
pub fn put_lent(
    table: &mut [u32],
    arena: &mut [u8],
    counters: Counters,
    kind: u32,
    bytes: &[u8],
) -> Put
    ensures { put_lent result.answer table.new arena.new result.counters
        ≡ put_gives (contents table.old arena.old counters) (term kind bytes.now) }
{
    let mut lent = counters;
    let answer = put(table, arena, &mut lent, kind, bytes);
    Put {
        answer,
        counters: lent,
    }
}

// The answer, and the four records afterwards.
#[derive(Clone, Copy)]
pub struct Filled {
    pub answer: Result<(), Refusal>,
    pub records: [FindingRecord; 4],
}

// The records' call on the first n of four records, which are lent; the others stay.
pub fn fill_lent(numbers: &[u32], records: [FindingRecord; 4], n: usize) -> Filled
    requires { n ≤ 4 }
    ensures { records_result (answer_number result.answer) result.records
        ≡ filled_of (records_give numbers.now (take n records)) (drop n records) }
{
    let mut lent = records;
    let answer = findings_as_records(numbers, &mut lent[..n]);
    Filled {
        answer,
        records: lent,
    }
}
