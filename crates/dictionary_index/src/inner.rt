// Put, and where a term lies, where the contents are known to be a dictionary's: for callers that test them once and not at each call.
ghost use Rattle.std.specs.Prelude.{◌≡◌, ◌≤◌, T, length};
ghost use Rattle.common.specs.Refusals.{answer_number};
ghost use Rattle.dictionary_layout.specs.Terms.{term};
ghost use Rattle.dictionary_layout.specs.Dictionary.{valid, lookup_answer};
ghost use Rattle.dictionary_layout.specs.Calls.{put_gives};
ghost use Rattle.dictionary_layout.specs.Values.{contents};
ghost use Rattle.dictionary_index.specs.Values.{put_left, located, further, Locates};
ghost use Rattle.dictionary_index.specs.Found.{term_refusal, Found};

use crate::values::{Located, PutNext};
use common::{ENTRY_WIDTH, HEADS_WIDTH, Id, Refusal, TERM_LIMIT};
use dictionary_entries::append::append;
use dictionary_entries::entry::find_term;
use dictionary_layout::Counters;
use dictionary_layout::hash::digest;

// Why a put refuses a term, whatever is held, if it does.
#[tactic(auto, unfolding(crate::specs::Found::term_refusal))]
pub fn put_refusal(kind: u32, bytes: &[u8]) -> Result<(), Refusal>
    ensures { answer_number result ≡ term_refusal (term kind bytes.now) }
{
    if kind < 1 || 3 < kind {
        Err(Refusal::UnknownKind)
    } else if TERM_LIMIT < bytes.len() {
        Err(Refusal::TermTooLong)
    } else {
        Ok(())
    }
}

// Put where the term was sought: its id is given where it is held.
pub fn put_found(
    table: &mut [u32],
    arena: &mut [u8],
    counters: Counters,
    kind: u32,
    bytes: &[u8],
    chain: usize,
    found: Option<Id>,
) -> Result<PutNext, Refusal>
    requires { Found (contents table.old arena.old counters) (term kind bytes.now) chain found }
    ensures { put_left counters result table.new arena.new
        ≡ put_gives (contents table.old arena.old counters) (term kind bytes.now) }
{
    if let Some(id) = found {
        return Ok(PutNext { id, counters });
    }
    if table.len() < HEADS_WIDTH + ENTRY_WIDTH * (counters.terms as usize + 1)
        || arena.len() < counters.used as usize + bytes.len()
    {
        return Err(Refusal::DictionaryFull);
    }
    let next = append(table, arena, counters, kind, bytes, chain);
    Ok(PutNext {
        id: Id(counters.terms),
        counters: next,
    })
}

// Put without the test for a broken dictionary; it leaves a dictionary that is not broken.
pub fn put_valid(
    table: &mut [u32],
    arena: &mut [u8],
    counters: Counters,
    kind: u32,
    bytes: &[u8],
) -> Result<PutNext, Refusal>
    requires { T (valid (contents table.old arena.old counters)) }
    ensures { put_left counters result table.new arena.new
        ≡ put_gives (contents table.old arena.old counters) (term kind bytes.now) }
{
    put_refusal(kind, bytes)?;
    let chain = digest(kind, bytes).chain;
    let found = find_term(table, arena, counters, kind, bytes, chain);
    put_found(table, arena, counters, kind, bytes, chain, found)
}

// Where the term of an id lies.
pub fn locate(table: &[u32], arena: &[u8], counters: Counters, id: Id) -> Located
    requires { T (valid (contents table.now arena.now counters)) }
    ensures { Locates result (contents table.now arena.now counters) id.0 }
{
    if counters.terms <= id.0 {
        return Located {
            number: 12,
            kind: 0,
            start: 0,
            end: 0,
        };
    }
    let at = HEADS_WIDTH + ENTRY_WIDTH * (id.0 as usize);
    let start = table[at] as usize;
    let end = start + table[at + 1] as usize;
    Located {
        number: 0,
        kind: table[at + 2],
        start,
        end,
    }
}

// The part of the arena that was located, with the number and the kind.
pub fn part<'a>(arena: &'a [u8], place: Located, number: &mut u32, kind: &mut u32) -> &'a [u8]
    requires { (place.start ≤ place.end) × (place.end ≤ length arena.now) }
    ensures result_after { lookup_answer number.new kind.new result.now ≡ located place arena.now }
    ensures ref_ptr_value { result.ref_ptr ≡ further arena.entry.ref_ptr place.start }
{
    *number = place.number;
    *kind = place.kind;
    &arena[place.start..place.end]
}
