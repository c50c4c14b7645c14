// The three terms that a run puts, all or none.
#![tactic(auto)]

mod values; // values.rt: what their put answers

ghost use Rattle.std.specs.Prelude.{◌≡◌, T, length};
ghost use Rattle.dictionary_layout.specs.Terms.{term, run_terms};
ghost use Rattle.dictionary_layout.specs.Layout.{decode};
ghost use Rattle.dictionary_layout.specs.Dictionary.{valid, put_all};
ghost use Rattle.dictionary_run_terms.specs.Calls.{run_terms_give, run_terms_left};
ghost use Rattle.dictionary_run_terms.specs.Running.{counted, Countable, is_all_put};
ghost use Rattle.dictionary_layout.specs.Values.{contents};

use common::{ENTRY_WIDTH, HEADS_WIDTH, Refusal};
use dictionary_entries::entry::find_term;
use dictionary_index::put_valid;
use dictionary_layout::Counters;
use dictionary_layout::hash::digest;
pub use values::{RunTermIds, RunTerms};

const PROPERTY: [u8; 51] = *b"http://www.w3.org/1999/02/22-rdf-syntax-ns#Property";

const MEMBERSHIP: [u8; 64] = *b"http://www.w3.org/2000/01/rdf-schema#ContainerMembershipProperty";

const MEMBER: [u8; 43] = *b"http://www.w3.org/2000/01/rdf-schema#member";

// The counters with one term more, where the named node is not held.
fn count_new(table: &[u32], arena: &[u8], counters: Counters, iri: &[u8], sum: Counters) -> Counters
    requires { Countable (contents table.now arena.now counters) iri.now sum }
    ensures { result ≡ counted (decode (contents table.now arena.now counters)) (term 1 iri.now)
        sum }
{
    let chain = digest(1, iri).chain;
    match find_term(table, arena, counters, 1, iri, chain) {
        Some(_) => sum,
        None => Counters {
            terms: sum.terms + 1,
            used: sum.used + iri.len() as u32,
        },
    }
}

// Whether those of the three that are not held fit.
fn run_terms_fit(table: &[u32], arena: &[u8], counters: Counters) -> bool
    requires { T (valid (contents table.now arena.now counters)) }
    ensures { result ≡ is_all_put (put_all (length table.now) (length arena.now)
        (decode (contents table.now arena.now counters)) run_terms) }
{
    let c = count_new(table, arena, counters, &PROPERTY, counters);
    let c = count_new(table, arena, counters, &MEMBERSHIP, c);
    let c = count_new(table, arena, counters, &MEMBER, c);
    HEADS_WIDTH + ENTRY_WIDTH * (c.terms as usize) <= table.len() && c.used as usize <= arena.len()
}

// Puts rdf Property, rdfs ContainerMembershipProperty and rdfs member in a dictionary that is not broken, and leaves it so.
pub fn put_run_terms(
    table: &mut [u32],
    arena: &mut [u8],
    counters: Counters,
) -> Result<RunTerms, Refusal>
    requires { T (valid (contents table.old arena.old counters)) }
    ensures { run_terms_left counters result table.new arena.new
        ≡ run_terms_give (contents table.old arena.old counters) }
{
    if !run_terms_fit(table, arena, counters) {
        return Err(Refusal::DictionaryFull);
    }
    let p = put_valid(table, arena, counters, 1, &PROPERTY).unwrap();
    let q = put_valid(table, arena, p.counters, 1, &MEMBERSHIP).unwrap();
    let r = put_valid(table, arena, q.counters, 1, &MEMBER).unwrap();
    let ids = RunTermIds {
        property: p.id,
        membership: q.id,
        member: r.id,
    };
    Ok(RunTerms {
        ids,
        counters: r.counters,
    })
}
