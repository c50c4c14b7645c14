// The terms of a started dictionary, each at the id that the vocabulary gives it.
ghost use Rattle.std.specs.Prelude.{◌≡◌, ◌++◌, ◌+◌, ◌≤◌, T, length, get_or};
ghost use Rattle.common.specs.Refusals.{answer_number};
ghost use Rattle.dictionary_layout.specs.Terms.{start_terms, start_count};
ghost use Rattle.dictionary_layout.specs.Layout.{layout};
ghost use Rattle.dictionary_layout.specs.Dictionary.{sized, start_fits, start_refusal};
ghost use Rattle.dictionary_entries.specs.Starting.{Upto, Next, Ends, listed, Blank};
ghost use Rattle.dictionary_layout.specs.Values.{contents};

use crate::append::{append, write_entry};
use crate::values::Word;
use common::{ARENA_LIMIT, ENTRY_WIDTH, HEADS_WIDTH, Id, Refusal, TABLE_LIMIT, Vocab};
use dictionary_layout::bytes::copy_at;
use dictionary_layout::hash::digest;
use dictionary_layout::{Counters, START_BYTES, START_TABLE};

// The most bytes of a term of the start.
const IRI_LIMIT: usize = 64;

// Id 0, which stands in no chain.
fn enter_blank(table: &mut [u32], arena: &mut [u8]) -> Counters
    requires { Blank table.old arena.old }
    ensures { Upto (contents table.new arena.new result) 1 }
{
    copy_at(arena, 0, b"urn:_");
    write_entry(table, 0, 0, 5, 1, 0);
    Counters { terms: 1, used: 5 }
}

// The named node that the id stands for.
fn enter(table: &mut [u32], arena: &mut [u8], counters: Counters, id: Id, iri: &[u8]) -> Counters
    requires { Next (contents table.old arena.old counters) id.0 iri.now }
    ensures { Upto (contents table.new arena.new result) (id.0 + 1) }
{
    let chain = digest(1, iri).chain;
    append(table, arena, counters, 1, iri, chain)
}

// The named node of a namespace and a local name.
fn enter_named(
    table: &mut [u32],
    arena: &mut [u8],
    counters: Counters,
    id: Id,
    namespace: &[u8],
    name: &[u8],
) -> Counters
    requires { Next (contents table.old arena.old counters) id.0 (namespace.now ++ name.now) }
    ensures { Upto (contents table.new arena.new result) (id.0 + 1) }
{
    let mut iri = [0u8; IRI_LIMIT];
    let seam = namespace.len();
    let end = seam + name.len();
    copy_at(&mut iri, 0, namespace);
    copy_at(&mut iri, seam, name);
    enter(table, arena, counters, id, &iri[..end])
}

// Where the name ends that begins at from, and where the next begins.
fn name_end(names: &[u8], from: usize) -> Word
    requires { from ≤ length names.now }
    ensures { Ends names.now from result.end result.next }
{
    for end in from..names.len() {
        if names[end] == b' ' {
            return Word { end, next: end + 1 };
        }
    }
    Word {
        end: names.len(),
        next: names.len(),
    }
}

// The named nodes of a namespace, their local names parted by spaces, each at its id.
fn enter_names(
    table: &mut [u32],
    arena: &mut [u8],
    counters: Counters,
    namespace: &[u8],
    names: &[u8],
    ids: &[u32],
) -> Counters
    requires { Upto (contents table.old arena.old counters) (get_or ids.now 0 0)
        × T (listed namespace.now names.now ids.now (get_or ids.now 0 0)) }
    ensures { Upto (contents table.new arena.new result) (get_or ids.now 0 0 + length ids.now) }
{
    let mut c = counters;
    let mut from = 0;
    for id in ids {
        let name = name_end(names, from);
        c = enter_named(table, arena, c, Id(*id), namespace, &names[from..name.end]);
        from = name.next;
    }
    c
}

// Ids 1 to 4.
fn enter_rdf(table: &mut [u32], arena: &mut [u8], counters: Counters) -> Counters
    requires { Upto (contents table.old arena.old counters) 1 }
    ensures { Upto (contents table.new arena.new result) 5 }
{
    let ids = [
        Vocab::RDF_TYPE.0,
        Vocab::RDF_FIRST.0,
        Vocab::RDF_REST.0,
        Vocab::RDF_NIL.0,
    ];
    let namespace = b"http://www.w3.org/1999/02/22-rdf-syntax-ns#";
    let names = b"type first rest nil";
    enter_names(table, arena, counters, namespace, names, &ids)
}

// Ids 5 to 8.
fn enter_rdfs(table: &mut [u32], arena: &mut [u8], counters: Counters) -> Counters
    requires { Upto (contents table.old arena.old counters) 5 }
    ensures { Upto (contents table.new arena.new result) 9 }
{
    let ids = [
        Vocab::RDFS_DOMAIN.0,
        Vocab::RDFS_RANGE.0,
        Vocab::RDFS_SUB_PROPERTY_OF.0,
        Vocab::RDFS_SUB_CLASS_OF.0,
    ];
    let namespace = b"http://www.w3.org/2000/01/rdf-schema#";
    let names = b"domain range subPropertyOf subClassOf";
    enter_names(table, arena, counters, namespace, names, &ids)
}

// The ids from 9 on.
fn enter_owl(table: &mut [u32], arena: &mut [u8], counters: Counters) -> Counters
    requires { Upto (contents table.old arena.old counters) 9 }
    ensures { Upto (contents table.new arena.new result) start_count }
{
    let ids = [
        Vocab::OWL_THING.0,
        Vocab::OWL_NOTHING.0,
        Vocab::OWL_SAME_AS.0,
        Vocab::OWL_INVERSE_OF.0,
        Vocab::OWL_SYMMETRIC_PROPERTY.0,
        Vocab::OWL_IRREFLEXIVE_PROPERTY.0,
        Vocab::OWL_ASYMMETRIC_PROPERTY.0,
        Vocab::OWL_TRANSITIVE_PROPERTY.0,
        Vocab::OWL_EQUIVALENT_PROPERTY.0,
        Vocab::OWL_EQUIVALENT_CLASS.0,
        Vocab::OWL_FUNCTIONAL_PROPERTY.0,
        Vocab::OWL_INVERSE_FUNCTIONAL_PROPERTY.0,
        Vocab::OWL_INTERSECTION_OF.0,
        Vocab::OWL_UNION_OF.0,
        Vocab::OWL_HAS_VALUE.0,
        Vocab::OWL_ALL_VALUES_FROM.0,
        Vocab::OWL_SOME_VALUES_FROM.0,
        Vocab::OWL_DISJOINT_WITH.0,
        Vocab::OWL_ON_PROPERTY.0,
        Vocab::OWL_COMPLEMENT_OF.0,
        Vocab::OWL_PROPERTY_DISJOINT_WITH.0,
        Vocab::OWL_CLASS.0,
    ];
    let namespace = b"http://www.w3.org/2002/07/owl#";
    let names =
        b"Thing Nothing sameAs inverseOf SymmetricProperty IrreflexiveProperty AsymmetricProperty TransitiveProperty \
        equivalentProperty equivalentClass FunctionalProperty InverseFunctionalProperty intersectionOf unionOf hasValue \
        allValuesFrom someValuesFrom disjointWith onProperty complementOf propertyDisjointWith Class";
    enter_names(table, arena, counters, namespace, names, &ids)
}

// All of them, in a table and an arena of zeros.
pub fn enter_all(table: &mut [u32], arena: &mut [u8]) -> Counters
    requires { Blank table.old arena.old }
    ensures { contents table.new arena.new result
        ≡ layout (length table.old) (length arena.old) start_terms }
{
    let c = enter_blank(table, arena);
    let c = enter_rdf(table, arena, c);
    let c = enter_rdfs(table, arena, c);
    enter_owl(table, arena, c)
}

// Whether a table and an arena of these lengths are well sized.
fn is_sized(table: usize, arena: usize) -> bool
    ensures { result ≡ sized table arena }
{
    HEADS_WIDTH <= table
        && (table - HEADS_WIDTH) % ENTRY_WIDTH == 0
        && table <= TABLE_LIMIT
        && arena <= ARENA_LIMIT
}

// Whether they have room for the start's terms.
#[tactic(auto, unfolding(dictionary_layout::specs::Terms::start_terms))]
fn has_room(table: usize, arena: usize) -> bool
    ensures { result ≡ start_fits table arena }
{
    START_TABLE <= table && START_BYTES <= arena
}

// Why a start refuses a table and an arena of these lengths, if it does.
#[tactic(auto, unfolding(dictionary_layout::specs::Dictionary::start_refusal))]
pub fn start_refusal(table: usize, arena: usize) -> Result<(), Refusal>
    ensures { answer_number result ≡ start_refusal table arena }
{
    if !is_sized(table, arena) {
        Err(Refusal::IllSizedStore)
    } else if !has_room(table, arena) {
        Err(Refusal::DictionaryFull)
    } else {
        Ok(())
    }
}
