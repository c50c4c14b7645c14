// Findings as records: a lent slice of structs, filled from the five-number form that a run leaves.
#![tactic(auto)]

ghost use Rattle.std.specs.Prelude.{◌≡◌, ◌+◌, ◌*◌, ◌≤◌, length};
ghost use Rattle.common.specs.Refusals.{answer_number};
ghost use Rattle.common.specs.Sizes.{finding_width};
ghost use Rattle.edge_records.specs.Records.{five_at, plan_for, records_result, records_give};

use common::{FINDING_WIDTH, Refusal};

// A finding: the check's number, then the four numbers of REFERENCE 7.1.
#[derive(Clone, Copy, PartialEq, Eq)]
pub struct FindingRecord {
    pub check: u32,
    pub a: u32,
    pub b: u32,
    pub c: u32,
    pub d: u32,
}

// The record of the five numbers at a place.
pub fn record_at(numbers: &[u32], i: usize) -> FindingRecord
    requires { finding_width * i + finding_width ≤ length numbers.now }
    ensures { result ≡ five_at numbers.now i }
{
    let at = FINDING_WIDTH * i;
    FindingRecord {
        check: numbers[at],
        a: numbers[at + 1],
        b: numbers[at + 2],
        c: numbers[at + 3],
        d: numbers[at + 4],
    }
}

// How many records are filled: all where there is one for each five numbers; else the call is refused.
pub fn plan_of(numbers: usize, records: usize) -> Option<usize>
    ensures { result ≡ plan_for numbers records }
{
    if numbers / FINDING_WIDTH == records && numbers % FINDING_WIDTH == 0 {
        Some(records)
    } else {
        None
    }
}

// Fills the records from the numbers, or refuses with 4 and changes nothing.
pub fn findings_as_records(numbers: &[u32], records: &mut [FindingRecord]) -> Result<(), Refusal>
    ensures { records_result (answer_number result) records.new ≡ records_give numbers.now records.old }
{
    let Some(count) = plan_of(numbers.len(), records.len()) else {
        return Err(Refusal::IllSizedStore);
    };
    for i in 0..count {
        records[i] = record_at(numbers, i);
    }
    Ok(())
}
