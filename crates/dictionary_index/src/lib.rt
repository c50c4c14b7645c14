// The dictionary, as index.rs has it: start, put and lookup, for all inputs.
#![tactic(auto)]

mod inner; // inner.rt: put, and where a term lies, where the contents are known to be a dictionary's
mod values; // values.rt: what the calls answer

ghost use Rattle.std.specs.Prelude.{◌≡◌};
ghost use Rattle.dictionary_layout.specs.Terms.{term};
ghost use Rattle.dictionary_layout.specs.Dictionary.{lookup_answer};
ghost use Rattle.dictionary_layout.specs.Calls.{start_gives, put_gives};
ghost use Rattle.dictionary_layout.specs.Values.{contents};
ghost use Rattle.dictionary_index.specs.Values.{start_left, put_left, put_lent, Locates, LooksUp};

use common::{Id, Refusal};
use dictionary_entries::initial::{enter_all, start_refusal};
pub use dictionary_layout::Counters;
pub use dictionary_valid::is_valid;
use inner::part;
pub use inner::{locate, put_found, put_refusal, put_valid};
pub use values::{Located, PutNext};

// Starts a dictionary in any table and arena that are well sized and large enough.
pub fn start(table: &mut [u32], arena: &mut [u8]) -> Result<Counters, Refusal>
    ensures { start_left result table.new arena.new ≡ start_gives table.old arena.old }
{
    start_refusal(table.len(), arena.len())?;
    table.fill(0);
    arena.fill(0);
    Ok(enter_all(table, arena))
}

// Put, with the counters by value.
pub fn put_by_value(
    table: &mut [u32],
    arena: &mut [u8],
    counters: Counters,
    kind: u32,
    bytes: &[u8],
) -> Result<PutNext, Refusal>
    ensures { put_left counters result table.new arena.new
        ≡ put_gives (contents table.old arena.old counters) (term kind bytes.now) }
{
    if is_valid(table, arena, counters) {
        return put_valid(table, arena, counters, kind, bytes);
    }
    Err(Refusal::BrokenDictionary)
}

// Put: the id of the term, which is added where it is not held. The counters are lent, and changed with the table and the arena.
pub fn put(
    table: &mut [u32],
    arena: &mut [u8],
    counters: &mut Counters,
    kind: u32,
    bytes: &[u8],
) -> Result<Id, Refusal>
    ensures { put_lent result table.new arena.new counters.new
        ≡ put_gives (contents table.old arena.old counters.old) (term kind bytes.now) }
{
    let next = put_by_value(table, arena, *counters, kind, bytes)?;
    *counters = next.counters;
    Ok(next.id)
}

// Where the term of an id lies, or a refusal.
fn find_part(table: &[u32], arena: &[u8], counters: Counters, id: Id) -> Located
    ensures { Locates result (contents table.now arena.now counters) id.0 }
{
    if is_valid(table, arena, counters) {
        return locate(table, arena, counters, id);
    }
    Located {
        number: 1,
        kind: 0,
        start: 0,
        end: 0,
    }
}

// The bytes of an id's term, as the part of the arena that holds them, with the refusal's number and the kind.
pub fn lookup<'a>(
    table: &[u32],
    arena: &'a [u8],
    counters: Counters,
    id: Id,
    number: &mut u32,
    kind: &mut u32,
) -> &'a [u8]
    ensures { LooksUp (lookup_answer number.new kind.new result.now) arena.entry.ref_ptr result.ref_ptr
        (contents table.now arena.now counters) id.0 }
{
    let place = find_part(table, arena, counters, id);
    part(arena, place, number, kind)
}
