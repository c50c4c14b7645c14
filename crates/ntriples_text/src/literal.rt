// A literal: its text, escaped, and its language tag or datatype.
ghost use Rattle.std.specs.Prelude.{◌≡◌, ◌+◌, ◌≤◌, length};
ghost use Rattle.common.specs.Sizes.{term_limit};
ghost use Rattle.dictionary_layout.specs.Terms.{term};
ghost use Rattle.ntriples.specs.Characters.{one_of};
ghost use Rattle.ntriples_utf8.specs.Promises.{Wrote};
ghost use Rattle.ntriples_canonical.specs.Writing.{escaped, escape_all, suffix_text, term_text};
ghost use Rattle.ntriples_text.specs.Promises.{or_nothing, text_size, TextFits, in_angles, LastZero, is_suffix, escape_by, Utf8Short};

use dictionary_layout::bytes::{copy_at, same_bytes};
use ntriples_lines::XSD_STRING;
use ntriples_tokens::{iri, tag};

// The place of the last zero.
fn last_zero(bytes: &[u8]) -> Option<usize>
    ensures { LastZero bytes.now result }
{
    bytes.iter().rposition(|b| *b == 0)
}

// The letter of a character's escape, none for one that is written as it is.
#[tactic(auto, unfolding(ntriples_canonical::specs::Writing::escaped))]
fn escape_letter(b: u8) -> Option<u8>
    ensures { escape_by result b ≡ escaped b }
{
    match b {
        b'"' => Some(b'"'),
        b'\\' => Some(b'\\'),
        b'\n' => Some(b'n'),
        b'\r' => Some(b'r'),
        _ => None,
    }
}

// How many bytes a text has when it is escaped.
fn escaped_length(text: &[u8]) -> usize
    requires { length text.now ≤ term_limit }
    ensures { result ≡ length (escape_all text.now) }
{
    let mut n = text.len();
    for b in text {
        if escape_letter(*b).is_some() {
            n += 1;
        }
    }
    n
}

// Copies bytes to the page from place `at` on, and answers the place after them.
pub fn put_part(bytes: &[u8], page: &mut [u8], at: usize) -> usize
    requires { at + length bytes.now ≤ length page.old }
    ensures { Wrote page.old at bytes.now page.new result }
{
    copy_at(page, at, bytes);
    at + bytes.len()
}

// Writes an IRI in angle brackets.
pub fn put_iri(bytes: &[u8], page: &mut [u8], at: usize) -> usize
    requires { at + length (in_angles bytes.now) ≤ length page.old }
    ensures { Wrote page.old at (in_angles bytes.now) page.new result }
{
    page[at] = b'<';
    let n = put_part(bytes, &mut *page, at + 1);
    page[n] = b'>';
    n + 1
}

// Writes a character of a text, escaped, and answers the place after it.
fn put_escape(b: u8, page: &mut [u8], at: usize) -> usize
    requires { at + length (escaped b) ≤ length page.old }
    ensures { Wrote page.old at (escaped b) page.new result }
{
    let Some(letter) = escape_letter(b) else {
        page[at] = b;
        return at + 1;
    };
    page[at] = b'\\';
    page[at + 1] = letter;
    at + 2
}

// Writes a text, escaped.
fn put_escaped(text: &[u8], page: &mut [u8], at: usize) -> usize
    requires { at + length (escape_all text.now) ≤ length page.old }
    ensures { Wrote page.old at (escape_all text.now) page.new result }
{
    let mut n = at;
    for b in text {
        n = put_escape(*b, &mut *page, n);
    }
    n
}

// Whether a colon tells that it is a datatype.
fn has_colon(d: &[u8]) -> bool
    ensures { result ≡ one_of d.now 58 }
{
    d.contains(&b':')
}

// How many bytes follow a literal's text.
fn suffix_length(d: &[u8]) -> usize
    requires { length d.now ≤ term_limit }
    ensures { result ≡ length (suffix_text d.now) }
{
    if same_bytes(d, &XSD_STRING) {
        return 0;
    }
    if has_colon(d) {
        return d.len() + 4;
    }
    d.len() + 1
}

// Writes what follows a literal's text.
fn put_suffix(d: &[u8], page: &mut [u8], at: usize) -> usize
    requires { at + length (suffix_text d.now) ≤ length page.old }
    ensures { Wrote page.old at (suffix_text d.now) page.new result }
{
    if same_bytes(d, &XSD_STRING) {
        return at;
    }
    if has_colon(d) {
        page[at] = b'^';
        page[at + 1] = b'^';
        return put_iri(d, page, at + 2);
    }
    page[at] = b'@';
    put_part(d, page, at + 1)
}

// Whether it is a datatype or a language tag.
fn is_suffix(d: &[u8]) -> bool
    ensures { result ≡ is_suffix d.now }
{
    iri(d) || tag(d)
}

// How many bytes the text of a literal has whose bytes are UTF-8, none where reading could never have put it.
pub fn literal_length(bytes: &[u8]) -> Option<usize>
    requires { Utf8Short bytes.now }
    ensures { result ≡ text_size (term_text (term 3 bytes.now)) }
{
    let z = last_zero(bytes)?;
    let suffix = &bytes[z + 1..];
    if !is_suffix(suffix) {
        return None;
    }
    Some(escaped_length(&bytes[..z]) + suffix_length(suffix) + 2)
}

// Writes a literal that has a text, so that one of its bytes is a zero.
pub fn put_literal(bytes: &[u8], page: &mut [u8], at: usize) -> usize
    requires { TextFits (term_text (term 3 bytes.now)) at page.old }
    ensures { Wrote page.old at (or_nothing (term_text (term 3 bytes.now))) page.new result }
{
    let z = last_zero(bytes).unwrap();
    page[at] = b'"';
    let n = put_escaped(&bytes[..z], &mut *page, at + 1);
    page[n] = b'"';
    put_suffix(&bytes[z + 1..], page, n + 1)
}
