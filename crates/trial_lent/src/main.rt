// Calls the two public functions that are lent structs: dictionary_index::put, which is lent the counters, and
// edge_records::findings_as_records, which is lent a slice of records. What each call must give is written here as REFERENCE 3.2 and 7.3
// have it, and what it gives is compared with that. In the lists of wrong expectations each call has one that is wrong on purpose, and must
// come out as a difference.
#![tactic(auto)]

mod lent; // lent.rt: the two calls, for callers that have the structs by value

ghost use Rattle.std.specs.Prelude.{◌≤◌, ◌<◌};

use common::{Id, Refusal};
use dictionary_index::{Counters, start};
use edge_records::FindingRecord;
use lent::{fill_lent, put_lent};
use std::io;
use trial_buffers::tally::{Tally, no_calls};

// The dictionary: 33 entries, and an arena of 12 bytes more than a start takes.
const TABLE: usize = 196;

const ARENA: usize = 1337;

// The greatest id.
const MOST: u32 = 4294967295;

fn print_list(rt: &impl Print, name: &str, tally: Tally) -> io::Result<()> {
    let calls = tally.calls;
    let differences = tally.differences;
    println!(rt; "{name}: calls {calls}, differences {differences}")
}

// What a put must give: the answer, the counters, and whether table and arena stay as they are.
#[derive(Clone, Copy)]
struct Due {
    answer: Result<Id, Refusal>,
    terms: u32,
    used: u32,
    stays: bool,
}

// A new term: the dictionary has one term more.
fn new(id: u32, terms: u32, used: u32) -> Due {
    Due {
        answer: Ok(Id(id)),
        terms,
        used,
        stays: false,
    }
}

// A held term, or a refusal.
fn kept(answer: Result<Id, Refusal>, terms: u32, used: u32) -> Due {
    Due {
        answer,
        terms,
        used,
        stays: true,
    }
}

// The counters that the next put is lent, and the tally.
#[derive(Clone, Copy)]
struct State {
    counters: Counters,
    tally: Tally,
}

// A put, compared with what it must give.
fn step(
    table: &mut [u32; TABLE],
    arena: &mut [u8; ARENA],
    state: State,
    kind: u32,
    bytes: &[u8],
    due: Due,
) -> State {
    let old_table = *table;
    let old_arena = *arena;
    let lent = state.counters;
    let tally = state.tally;
    let next = put_lent(table, arena, lent, kind, bytes);
    let counters = next.counters;
    let stays = old_table == *table && old_arena == *arena;
    let counts = counters.terms == due.terms && counters.used == due.used;
    let agrees = next.answer == due.answer && counts && stays == due.stays;
    State {
        counters,
        tally: tally.with(1, u32::from(!agrees)),
    }
}

// After a refused start there are no counters, so that every put differs from what it must give.
fn begin(table: &mut [u32; TABLE], arena: &mut [u8; ARENA]) -> State {
    let none = Counters { terms: 0, used: 0 };
    State {
        counters: start(table, arena).unwrap_or(none),
        tally: no_calls(),
    }
}

// The next put is lent these counters.
fn lending(tally: Tally, terms: u32, used: u32) -> State {
    State {
        counters: Counters { terms, used },
        tally,
    }
}

// Two new terms, and held terms: these two, and two of the start.
fn puts(table: &mut [u32; TABLE], arena: &mut [u8; ARENA]) -> State {
    let rdf_type = b"http://www.w3.org/1999/02/22-rdf-syntax-ns#type";
    let mut s = begin(table, arena);
    s = step(table, arena, s, 1, b"urn:t1", new(31, 32, 1331));
    s = step(table, arena, s, 3, b"urn:t1", new(32, 33, 1337));
    s = step(table, arena, s, 1, b"urn:t1", kept(Ok(Id(31)), 33, 1337));
    s = step(table, arena, s, 3, b"urn:t1", kept(Ok(Id(32)), 33, 1337));
    s = step(table, arena, s, 1, b"urn:_", kept(Ok(Id(0)), 33, 1337));
    step(table, arena, s, 1, rdf_type, kept(Ok(Id(1)), 33, 1337))
}

// After `puts`: refusals 10, 7 and 11; an unknown kind is refused before a term that is too long.
fn refusals(table: &mut [u32; TABLE], arena: &mut [u8; ARENA]) -> State {
    let long = [b'a'; 4097];
    let unknown = Err(Refusal::UnknownKind);
    let full = Err(Refusal::DictionaryFull);
    let too_long = Err(Refusal::TermTooLong);
    let mut s = lending(no_calls(), 33, 1337);
    s = step(table, arena, s, 4, b"", kept(unknown, 33, 1337));
    s = step(table, arena, s, 0, b"", kept(unknown, 33, 1337));
    s = step(table, arena, s, 2, b"", kept(full, 33, 1337));
    s = step(table, arena, s, 1, &long, kept(too_long, 33, 1337));
    step(table, arena, s, 4, &long, kept(unknown, 33, 1337))
}

// After `puts`: counters that are not the dictionary's are refused with 1, before an unknown kind, and stay. The right ones are taken.
fn broken_counters(table: &mut [u32; TABLE], arena: &mut [u8; ARENA]) -> State {
    let broken = Err(Refusal::BrokenDictionary);
    let mut s = lending(no_calls(), 32, 1337);
    s = step(table, arena, s, 1, b"urn:t1", kept(broken, 32, 1337));
    s = lending(s.tally, 33, 1336);
    s = step(table, arena, s, 1, b"urn:t1", kept(broken, 33, 1336));
    s = lending(s.tally, 0, 0);
    s = step(table, arena, s, 4, b"", kept(broken, 0, 0));
    s = lending(s.tally, 33, 1337);
    step(table, arena, s, 1, b"urn:t1", kept(Ok(Id(31)), 33, 1337))
}

// A term of 13 bytes, for which there is no room, and one of 12; then only a term of no bytes has room, and after it none.
fn last_bytes(table: &mut [u32; TABLE], arena: &mut [u8; ARENA]) -> State {
    let full = Err(Refusal::DictionaryFull);
    let mut s = begin(table, arena);
    s = step(table, arena, s, 1, b"urn:123456789", kept(full, 31, 1325));
    s = step(table, arena, s, 1, b"urn:12345678", new(31, 32, 1337));
    s = step(table, arena, s, 2, b"b", kept(full, 32, 1337));
    s = step(table, arena, s, 3, b"", new(32, 33, 1337));
    s = step(table, arena, s, 3, b"", kept(Ok(Id(32)), 33, 1337));
    step(table, arena, s, 2, b"", kept(full, 33, 1337))
}

// Wrong on purpose, one thing in each call: that table and arena stay, the id, the terms, the used bytes, that they change, the refusal.
fn wrong_puts(table: &mut [u32; TABLE], arena: &mut [u8; ARENA]) -> State {
    let unknown = Err(Refusal::UnknownKind);
    let mut s = begin(table, arena);
    s = step(table, arena, s, 1, b"urn:t1", kept(Ok(Id(31)), 32, 1331));
    s = step(table, arena, s, 3, b"urn:t1", new(31, 33, 1337));
    s = step(table, arena, s, 1, b"urn:t1", kept(Ok(Id(31)), 34, 1337));
    s = step(table, arena, s, 3, b"urn:t1", kept(Ok(Id(32)), 33, 1343));
    s = step(table, arena, s, 1, b"urn:_", new(0, 33, 1337));
    step(table, arena, s, 2, b"", kept(unknown, 33, 1337))
}

fn print_puts(rt: &impl Print) -> io::Result<()> {
    let mut table = [7u32; TABLE];
    let mut arena = [7u8; ARENA];
    let s = puts(&mut table, &mut arena);
    print_list(rt, "put with lent counters", s.tally)?;
    let r = refusals(&mut table, &mut arena);
    print_list(rt, "put with lent counters, refused", r.tally)?;
    let t = broken_counters(&mut table, &mut arena);
    print_list(rt, "put with lent counters that are broken", t.tally)?;
    let u = last_bytes(&mut table, &mut arena);
    print_list(rt, "put with lent counters, to the last byte", u.tally)?;
    let w = wrong_puts(&mut table, &mut arena);
    print_list(rt, "put with lent counters, wrong expectations", w.tally)
}

fn finding(check: u32, a: u32, b: u32, c: u32, d: u32) -> FindingRecord {
    FindingRecord { check, a, b, c, d }
}

// What the four records hold beforehand.
fn marks() -> [FindingRecord; 4] {
    let first = finding(101, 102, 103, 104, 105);
    let second = finding(106, 107, 108, 109, 110);
    let third = finding(111, 112, 113, 114, 115);
    let fourth = finding(116, 117, 118, 119, 120);
    [first, second, third, fourth]
}

// The first m of the numbers of four findings, as findings in the first n of the marks: the answer, and the four records afterwards.
fn filled(
    tally: Tally,
    m: usize,
    n: usize,
    answer: Result<(), Refusal>,
    due: [FindingRecord; 4],
) -> Tally
    requires m_bound { m ≤ 20 }
    requires n_bound { n ≤ 4 }
{
    let numbers = [
        1u32, 31, 32, 33, 0, 2, 41, 42, 43, 44, 5, 51, 52, 53, 54, 3, 61, 62, 63, MOST,
    ];
    let given = fill_lent(&numbers[..m], marks(), n);
    let records = given.records;
    let agrees = given.answer == answer && records == due;
    tally.with(1, u32::from(!agrees))
}

// None, one, three and four findings.
fn accepted() -> Tally {
    let first = finding(1, 31, 32, 33, 0);
    let second = finding(2, 41, 42, 43, 44);
    let third = finding(5, 51, 52, 53, 54);
    let fourth = finding(3, 61, 62, 63, MOST);
    let mark = finding(116, 117, 118, 119, 120);
    let mut one = marks();
    one[0] = first;
    let mut t = filled(no_calls(), 0, 0, Ok(()), marks());
    t = filled(t, 5, 1, Ok(()), one);
    t = filled(t, 15, 3, Ok(()), [first, second, third, mark]);
    filled(t, 20, 4, Ok(()), [first, second, third, fourth])
}

// A refusal with 4: all records stay.
fn refusal(tally: Tally, m: usize, n: usize) -> Tally
    requires m_bound { m ≤ 20 }
    requires n_bound { n ≤ 4 }
{
    filled(tally, m, n, Err(Refusal::IllSizedStore), marks())
}

// Too few records, too many, and numbers that are no multiple of five.
fn refused() -> Tally {
    let mut t = refusal(no_calls(), 5, 0);
    t = refusal(t, 15, 2);
    t = refusal(t, 0, 1);
    t = refusal(t, 15, 4);
    t = refusal(t, 4, 0);
    t = refusal(t, 4, 1);
    t = refusal(t, 14, 2);
    refusal(t, 16, 3)
}

// Four findings, of which that at a place is wrong.
fn wrong(tally: Tally, place: usize, f: FindingRecord) -> Tally
    requires { place < 4 }
{
    let first = finding(1, 31, 32, 33, 0);
    let second = finding(2, 41, 42, 43, 44);
    let third = finding(5, 51, 52, 53, 54);
    let fourth = finding(3, 61, 62, 63, MOST);
    let mut due = [first, second, third, fourth];
    due[place] = f;
    filled(tally, 20, 4, Ok(()), due)
}

// Wrong on purpose, one thing in each call: the answer, and each field of a record, in each of the four places.
fn wrong_findings() -> Tally {
    let mut t = refusal(no_calls(), 0, 0);
    t = wrong(t, 0, finding(2, 31, 32, 33, 0));
    t = wrong(t, 1, finding(2, 31, 42, 43, 44));
    t = wrong(t, 2, finding(5, 51, 53, 53, 54));
    t = wrong(t, 3, finding(3, 61, 62, 0, MOST));
    wrong(t, 0, finding(1, 31, 32, 33, 1))
}

fn print_findings(rt: &impl Print) -> io::Result<()> {
    print_list(rt, "findings as records", accepted())?;
    print_list(rt, "findings as records, refused", refused())?;
    print_list(
        rt,
        "findings as records, wrong expectations",
        wrong_findings(),
    )
}

fn main(rt: HostRuntime) -> io::Result<()> {
    print_puts(&rt)?;
    print_findings(&rt)
}
