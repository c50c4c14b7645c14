// The canonical text of a term: how long it is, and the term written.
#![tactic(auto)]

mod literal; // literal.rt: a literal's text and what follows it

ghost use Rattle.std.specs.Prelude.{◌≡◌};
ghost use Rattle.dictionary_layout.specs.Terms.{term};
ghost use Rattle.ntriples_utf8.specs.Promises.{Wrote};
ghost use Rattle.ntriples_canonical.specs.Writing.{term_text};
ghost use Rattle.ntriples_text.specs.Promises.{or_nothing, text_size, Measurable, TextFits};

use crate::literal::{literal_length, put_iri, put_literal, put_part};
use ntriples_tokens::{iri, whole_label};
use ntriples_utf8::decode;

// How many bytes the text of a term has, none where reading could never have put the term. Kind 1 is an IRI, 2 a blank node, 3 a literal.
pub fn text_length(kind: u32, bytes: &[u8], chars: &mut [u32]) -> Option<usize>
    requires { Measurable bytes.now chars.old }
    ensures { result ≡ text_size (term_text (term kind bytes.now)) }
{
    let n = decode(bytes, &mut *chars)?;
    match kind {
        1 => iri(bytes).then_some(bytes.len() + 2),
        2 => whole_label(&chars[..n]).then_some(bytes.len() + 2),
        3 => literal_length(bytes),
        _ => None,
    }
}

// Writes the text of a term that has one from place `at` on, and answers the place after it.
pub fn put_text(kind: u32, bytes: &[u8], page: &mut [u8], at: usize) -> usize
    requires { TextFits (term_text (term kind bytes.now)) at page.old }
    ensures { Wrote page.old at (or_nothing (term_text (term kind bytes.now))) page.new result }
{
    match kind {
        1 => put_iri(bytes, page, at),
        2 => {
            page[at] = b'_';
            page[at + 1] = b':';
            put_part(bytes, page, at + 2)
        }
        _ => put_literal(bytes, page, at),
    }
}
