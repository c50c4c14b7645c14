// One term more: its bytes, its entry, and its id as its chain's head.
ghost use Rattle.std.specs.Prelude.{◌≡◌, [], ◌∷◌, ◌+◌, ◌≤◌, length};
ghost use Rattle.std.proofs.lemmas.List.Edits.{sets};
ghost use Rattle.common.specs.Sizes.{entry_width};
ghost use Rattle.dictionary_layout.specs.Terms.{term};
ghost use Rattle.dictionary_layout.specs.Layout.{entry_at};
ghost use Rattle.dictionary_entries.specs.Entries.{Appendable, with_term};
ghost use Rattle.dictionary_layout.specs.Values.{contents};

use common::{ENTRY_WIDTH, HEADS_WIDTH};
use dictionary_layout::Counters;
use dictionary_layout::bytes::copy_at;

// Writes the four numbers of the entry of an id.
pub fn write_entry(table: &mut [u32], id: usize, start: u32, len: u32, kind: u32, next: u32)
    requires { entry_at id + entry_width ≤ length table.old }
    ensures { table.new ≡ sets table.old (entry_at id) (start ∷ len ∷ kind ∷ next ∷ []) }
{
    let at = HEADS_WIDTH + ENTRY_WIDTH * id;
    table[at] = start;
    table[at + 1] = len;
    table[at + 2] = kind;
    table[at + 3] = next;
}

// Appends a term that is not held.
pub fn append(
    table: &mut [u32],
    arena: &mut [u8],
    counters: Counters,
    kind: u32,
    bytes: &[u8],
    chain: usize,
) -> Counters
    requires { Appendable (contents table.old arena.old counters) (term kind bytes.now) chain }
    ensures { contents table.new arena.new result
        ≡ with_term (contents table.old arena.old counters) (term kind bytes.now) }
{
    let len = bytes.len() as u32;
    let next = table[chain];
    copy_at(arena, counters.used as usize, bytes);
    write_entry(
        table,
        counters.terms as usize,
        counters.used,
        len,
        kind,
        next,
    );
    table[chain] = counters.terms;
    Counters {
        terms: counters.terms + 1,
        used: counters.used + len,
    }
}
