// Ids, triples and the vocabulary, as common.rs has them, widths and limits, and the clearing of a buffer. The definitions that every
// crate cites are in specs/ beside it, and the theorems about them in proofs/.
#![tactic(auto)]

mod refusal; // refusal.rt: why a call is refused

ghost use Rattle.std.specs.Prelude.{◌≡◌};
ghost use Rattle.common.specs.Vocabulary.{vocabulary};
ghost use Rattle.common.specs.Rows.{cleared};

pub use refusal::Refusal;

// How many numbers a triple of a load has, a row of a store, a finding.
pub const LOAD_WIDTH: usize = 3;

pub const STORE_WIDTH: usize = 5;

pub const FINDING_WIDTH: usize = 5;

// The most triples of a load, of a store, and the most findings.
pub const LOAD_LIMIT: usize = 16384;

pub const STORE_LIMIT: usize = 65535;

pub const FINDING_LIMIT: usize = 65535;

// The chain heads of a table, the numbers of an entry, the most entries, and the most numbers of a table.
pub const HEADS_WIDTH: usize = 64;

pub const ENTRY_WIDTH: usize = 4;

pub const ENTRY_LIMIT: usize = 65535;

pub const TABLE_LIMIT: usize = HEADS_WIDTH + ENTRY_WIDTH * ENTRY_LIMIT;

// The most bytes of an arena, and of a term.
pub const ARENA_LIMIT: usize = 1048576;

pub const TERM_LIMIT: usize = 4096;

// How many terms a run puts, and the numbers that the list work buffer has for each term.
pub const RUN_TERMS: usize = 3;

pub const WORK_WIDTH: usize = 2;

// A term's id. A place in the list work buffer is another type, and so is a count.
#[derive(Clone, Copy, PartialEq, Eq)]
pub struct Id(pub u32);

#[derive(Clone, Copy, PartialEq, Eq)]
pub struct Triple {
    pub s: Id,
    pub p: Id,
    pub o: Id,
}

// A row of a store: a triple, the pass in which it came in, and the rule that brought it in; both 0 for a starting triple.
#[derive(Clone, Copy, PartialEq, Eq)]
pub struct Row {
    pub it: Triple,
    pub pass: u32,
    pub rule: u32,
}

// The ids of the thirty terms that a start puts.
#[derive(Clone, Copy)]
pub struct Vocab;

impl Vocab {
    pub const RDF_TYPE: Id = Id(1);

    pub const RDF_FIRST: Id = Id(2);

    pub const RDF_REST: Id = Id(3);

    pub const RDF_NIL: Id = Id(4);

    pub const RDFS_DOMAIN: Id = Id(5);

    pub const RDFS_RANGE: Id = Id(6);

    pub const RDFS_SUB_PROPERTY_OF: Id = Id(7);

    pub const RDFS_SUB_CLASS_OF: Id = Id(8);

    pub const OWL_THING: Id = Id(9);

    pub const OWL_NOTHING: Id = Id(10);

    pub const OWL_SAME_AS: Id = Id(11);

    pub const OWL_INVERSE_OF: Id = Id(12);

    pub const OWL_SYMMETRIC_PROPERTY: Id = Id(13);

    pub const OWL_IRREFLEXIVE_PROPERTY: Id = Id(14);

    pub const OWL_ASYMMETRIC_PROPERTY: Id = Id(15);

    pub const OWL_TRANSITIVE_PROPERTY: Id = Id(16);

    pub const OWL_EQUIVALENT_PROPERTY: Id = Id(17);

    pub const OWL_EQUIVALENT_CLASS: Id = Id(18);

    pub const OWL_FUNCTIONAL_PROPERTY: Id = Id(19);

    pub const OWL_INVERSE_FUNCTIONAL_PROPERTY: Id = Id(20);

    pub const OWL_INTERSECTION_OF: Id = Id(21);

    pub const OWL_UNION_OF: Id = Id(22);

    pub const OWL_HAS_VALUE: Id = Id(23);

    pub const OWL_ALL_VALUES_FROM: Id = Id(24);

    pub const OWL_SOME_VALUES_FROM: Id = Id(25);

    pub const OWL_DISJOINT_WITH: Id = Id(26);

    pub const OWL_ON_PROPERTY: Id = Id(27);

    pub const OWL_COMPLEMENT_OF: Id = Id(28);

    pub const OWL_PROPERTY_DISJOINT_WITH: Id = Id(29);

    pub const OWL_CLASS: Id = Id(30);
}

// The thirty in order: this contract holds each constant to the number that the definitions give it.
pub fn vocabulary() -> [u32; 30]
    ensures { result ≡ vocabulary }
{
    [
        Vocab::RDF_TYPE.0,
        Vocab::RDF_FIRST.0,
        Vocab::RDF_REST.0,
        Vocab::RDF_NIL.0,
        Vocab::RDFS_DOMAIN.0,
        Vocab::RDFS_RANGE.0,
        Vocab::RDFS_SUB_PROPERTY_OF.0,
        Vocab::RDFS_SUB_CLASS_OF.0,
        Vocab::OWL_THING.0,
        Vocab::OWL_NOTHING.0,
        Vocab::OWL_SAME_AS.0,
        Vocab::OWL_INVERSE_OF.0,
        Vocab::OWL_SYMMETRIC_PROPERTY.0,
        Vocab::OWL_IRREFLEXIVE_PROPERTY.0,
        Vocab::OWL_ASYMMETRIC_PROPERTY.0,
        Vocab::OWL_TRANSITIVE_PROPERTY.0,
        Vocab::OWL_EQUIVALENT_PROPERTY.0,
        Vocab::OWL_EQUIVALENT_CLASS.0,
        Vocab::OWL_FUNCTIONAL_PROPERTY.0,
        Vocab::OWL_INVERSE_FUNCTIONAL_PROPERTY.0,
        Vocab::OWL_INTERSECTION_OF.0,
        Vocab::OWL_UNION_OF.0,
        Vocab::OWL_HAS_VALUE.0,
        Vocab::OWL_ALL_VALUES_FROM.0,
        Vocab::OWL_SOME_VALUES_FROM.0,
        Vocab::OWL_DISJOINT_WITH.0,
        Vocab::OWL_ON_PROPERTY.0,
        Vocab::OWL_COMPLEMENT_OF.0,
        Vocab::OWL_PROPERTY_DISJOINT_WITH.0,
        Vocab::OWL_CLASS.0,
    ]
}

// All numbers from place k on become 0.
#[tactic(auto, unfolding(crate::specs::Rows::cleared))]
pub fn clear_from(buf: &mut [u32], k: usize)
    ensures { buf.new ≡ cleared k buf.old }
{
    if k < buf.len() {
        buf[k..].fill(0);
    }
}
