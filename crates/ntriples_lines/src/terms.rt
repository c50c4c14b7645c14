// Subjects, predicates and objects.
ghost use Rattle.std.specs.Prelude.{◌≡◌, drop};
ghost use Rattle.ntriples.specs.Grammar.{typed, suffix, named, blank_node, literal, subject, object};
ghost use Rattle.ntriples_tokens.specs.Promises.{Room, Parses};
ghost use Rattle.ntriples_lines.specs.Promises.{xsd_width, plain_width, as_found, Finds};

use dictionary_layout::bytes::copy_at;
use ntriples_tokens::{Token, blank_node_label, iriref, langtag, skip_space, string_literal_quote};

// A term that was read: its kind, the place after it, and the place after its bytes.
#[derive(Clone, Copy)]
pub struct FoundTerm {
    pub kind: u32,
    pub next: usize,
    pub end: usize,
}

// The datatype of a plain literal, and its length.
pub const XSD_WIDTH: usize = 39;

pub const XSD_STRING: [u8; XSD_WIDTH] = *b"http://www.w3.org/2001/XMLSchema#string";

// The datatype after the first '^'.
fn typed(chars: &[u32], at: usize, out: &mut [u8], used: usize) -> Option<Token>
    requires { Room 0 chars.now at out.old used }
    ensures { Parses 0 chars.now at out.old used (typed (drop at chars.now)) result
        out.new }
{
    if at == chars.len() || chars[at] != '^' as u32 {
        return None;
    }
    let next = skip_space(chars, at + 1);
    iriref(chars, next, out, used)
}

// What follows a literal's text: '^' begins a datatype, '@' a language tag.
fn suffix(chars: &[u32], at: usize, out: &mut [u8], used: usize) -> Option<Token>
    requires { Room xsd_width chars.now at out.old used }
    ensures { Parses xsd_width chars.now at out.old used (suffix (drop at chars.now)) result
        out.new }
{
    if at < chars.len() {
        let c = chars[at];
        if c == '^' as u32 {
            return typed(chars, at + 1, out, used);
        }
        if c == '@' as u32 {
            return langtag(chars, at + 1, out, used);
        }
    }
    copy_at(out, used, &XSD_STRING);
    Some(Token {
        next: at,
        end: used + XSD_WIDTH,
    })
}

// A term of a kind, from a token.
fn as_term(kind: u32, token: Option<Token>) -> Option<FoundTerm>
    ensures { result ≡ as_found kind token }
{
    let Token { next, end } = token?;
    Some(FoundTerm { kind, next, end })
}

pub fn named(chars: &[u32], at: usize, out: &mut [u8], used: usize) -> Option<FoundTerm>
    requires { Room 0 chars.now at out.old used }
    ensures { Finds 0 chars.now at out.old used (named (drop at chars.now)) result
        out.new }
{
    as_term(1, iriref(chars, at, out, used))
}

fn blank_node(chars: &[u32], at: usize, out: &mut [u8], used: usize) -> Option<FoundTerm>
    requires { Room 0 chars.now at out.old used }
    ensures { Finds 0 chars.now at out.old used (blank_node (drop at chars.now)) result
        out.new }
{
    as_term(2, blank_node_label(chars, at, out, used))
}

// A literal: its text, a zero byte, then its language tag or datatype.
fn literal(chars: &[u32], at: usize, out: &mut [u8], used: usize) -> Option<FoundTerm>
    requires { Room plain_width chars.now at out.old used }
    ensures { Finds plain_width chars.now at out.old used (literal (drop at chars.now)) result
        out.new }
{
    let text = string_literal_quote(chars, at, &mut *out, used)?;
    out[text.end] = 0;
    let next = skip_space(chars, text.next);
    as_term(3, suffix(chars, next, out, text.end + 1))
}

// An IRI begins with '<', a blank node with '_'.
pub fn subject(chars: &[u32], at: usize, out: &mut [u8], used: usize) -> Option<FoundTerm>
    requires { Room 0 chars.now at out.old used }
    ensures { Finds 0 chars.now at out.old used (subject (drop at chars.now)) result
        out.new }
{
    if at == chars.len() {
        return None;
    }
    if chars[at] == '<' as u32 {
        return named(chars, at, out, used);
    }
    blank_node(chars, at, out, used)
}

// A literal begins with '"'.
pub fn object(chars: &[u32], at: usize, out: &mut [u8], used: usize) -> Option<FoundTerm>
    requires { Room plain_width chars.now at out.old used }
    ensures { Finds plain_width chars.now at out.old used (object (drop at chars.now)) result
        out.new }
{
    if at == chars.len() {
        return None;
    }
    if chars[at] == '"' as u32 {
        return literal(chars, at, out, used);
    }
    subject(chars, at, out, used)
}
