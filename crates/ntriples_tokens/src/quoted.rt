// IRIREF and STRING_LITERAL_QUOTE.
ghost use Rattle.std.specs.Prelude.{◌≡◌, suc, ◌<◌, length, get_or, drop};
ghost use Rattle.ntriples.specs.Characters.{iri};
ghost use Rattle.ntriples.specs.Grammar.{iriref, string_literal_quote};
ghost use Rattle.ntriples_utf8.specs.Promises.{scalar_of};
ghost use Rattle.ntriples_tokens.specs.Promises.{character, quoted_in, Room, Parses};

use crate::characters::raw;
use crate::escape::escape;
use crate::values::Token;
use ntriples_utf8::{Scalar, put_scalar};

// The character at a place, raw or escaped, and how many more it took.
fn character(chars: &[u32], at: usize, iri: bool) -> Option<Scalar>
    requires { at < length chars.now }
    ensures { scalar_of result ≡ character iri (get_or chars.now at 0) (drop (suc at) chars.now) }
{
    let c = chars[at];
    if c == '\\' as u32 {
        escape(chars, at + 1, iri)
    } else if raw(iri, c) {
        Some(Scalar { value: c, extra: 0 })
    } else {
        None
    }
}

// Characters from a place on, up to the one that ends an IRIREF, or else a STRING_LITERAL_QUOTE.
fn quoted(chars: &[u32], at: usize, iri: bool, out: &mut [u8], used: usize) -> Option<Token>
    requires { Room 0 chars.now at out.old used }
    ensures { Parses 0 chars.now at out.old used (quoted_in iri (drop at chars.now)) result
        out.new }
{
    let stop = if iri { '>' as u32 } else { '"' as u32 };
    let mut i = at;
    let mut n = used;
    // i goes on by as many characters as an escape took
    while i < chars.len() {
        if chars[i] == stop {
            return Some(Token {
                next: i + 1,
                end: n,
            });
        }
        let c = character(chars, i, iri)?;
        n = put_scalar(c.value, &mut *out, n);
        i += 1 + c.extra;
    }
    None
}

// Whether the decoded bytes of an IRI have a colon and only what may stand in it unescaped.
pub fn iri(bytes: &[u8]) -> bool
    ensures { result ≡ iri bytes.now }
{
    bytes.contains(&b':') && bytes.iter().all(|b| raw(true, u32::from(*b)))
}

pub fn iriref(chars: &[u32], at: usize, out: &mut [u8], used: usize) -> Option<Token>
    requires { Room 0 chars.now at out.old used }
    ensures { Parses 0 chars.now at out.old used (iriref (drop at chars.now)) result
        out.new }
{
    if at == chars.len() || chars[at] != '<' as u32 {
        return None;
    }
    let t = quoted(chars, at + 1, true, &mut *out, used)?;
    if iri(&out[used..t.end]) {
        Some(t)
    } else {
        None
    }
}

pub fn string_literal_quote(chars: &[u32], at: usize, out: &mut [u8], used: usize) -> Option<Token>
    requires { Room 0 chars.now at out.old used }
    ensures { Parses 0 chars.now at out.old used (string_literal_quote (drop at chars.now)) result
        out.new }
{
    if at == chars.len() || chars[at] != '"' as u32 {
        return None;
    }
    quoted(chars, at + 1, false, out, used)
}
