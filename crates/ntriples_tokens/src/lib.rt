// The terminals of RDF 1.1 N-Triples over a line's Unicode scalar values.
#![tactic(auto)]

mod characters; // characters.rt: the classes of characters
mod escape; // escape.rt: UCHAR and ECHAR
mod label; // label.rt: BLANK_NODE_LABEL
mod language; // language.rt: LANGTAG
mod quoted; // quoted.rt: IRIREF and STRING_LITERAL_QUOTE
mod space; // space.rt: white space
mod values; // values.rt: what reading a token answers

pub use label::{blank_node_label, whole_label};
pub use language::{langtag, tag};
pub use quoted::{iri, iriref, string_literal_quote};
pub use space::skip_space;
pub use values::Token;
