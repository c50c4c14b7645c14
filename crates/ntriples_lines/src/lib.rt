// Lines of RDF 1.1 N-Triples: what each says, with the bytes of its terms.
#![tactic(auto)]

mod terms; // terms.rt: subjects, predicates and objects

ghost use Rattle.std.specs.Prelude.{◌≡◌, ◌≤◌, length, drop};
ghost use Rattle.ntriples.specs.Grammar.{ws, ended, triple_line, statement, line};
ghost use Rattle.ntriples_tokens.specs.Promises.{Room};
ghost use Rattle.ntriples_lines.specs.Promises.{plain_width, Says, LineFits, finish};

use crate::terms::{XSD_WIDTH, named, object, subject};
use ntriples_tokens::skip_space;
use ntriples_utf8::decode;
pub use terms::XSD_STRING;

// The most bytes of a line without its end, and the scalar values and bytes that suffice for one.
pub const LINE_LIMIT: usize = 32768;

pub const OUT_LENGTH: usize = 4 * LINE_LIMIT + XSD_WIDTH + 1;

// A line's terms: the kinds of subject and object, and the places after the bytes of subject, predicate and object, which stand one behind
// the other.
#[derive(Clone, Copy)]
pub struct LineTerms {
    pub subject_kind: u32,
    pub subject_end: usize,
    pub predicate_end: usize,
    pub object_kind: u32,
    pub object_end: usize,
}

// What a line of the grammar says.
#[derive(Clone, Copy)]
pub enum Said {
    Nothing,
    Triple(LineTerms),
}

// Whether nothing but a comment follows.
fn ended(chars: &[u32], at: usize) -> bool
    requires { at ≤ length chars.now }
    ensures { result ≡ ended (drop at chars.now) }
{
    at == chars.len() || chars[at] == '#' as u32
}

// Whether a dot, and nothing but a comment behind it, follows.
fn stopped(chars: &[u32], at: usize) -> bool
    requires { at ≤ length chars.now }
    ensures { result ≡ finish (drop at chars.now) }
{
    if at == chars.len() || chars[at] != '.' as u32 {
        return false;
    }
    let next = skip_space(chars, at + 1);
    ended(chars, next)
}

// A triple from a place on, none where it is none of the grammar's.
fn triple_line(chars: &[u32], at: usize, out: &mut [u8]) -> Option<Said>
    requires { Room plain_width chars.now at out.old 0 }
    ensures { Says (triple_line (drop at chars.now)) result out.new }
{
    let s = subject(chars, at, &mut *out, 0)?;
    let at = skip_space(chars, s.next);
    let p = named(chars, at, &mut *out, s.end)?;
    let at = skip_space(chars, p.next);
    let o = object(chars, at, &mut *out, p.end)?;
    let at = skip_space(chars, o.next);
    if !stopped(chars, at) {
        return None;
    }
    Some(Said::Triple(LineTerms {
        subject_kind: s.kind,
        subject_end: s.end,
        predicate_end: p.end,
        object_kind: o.kind,
        object_end: o.end,
    }))
}

// What the scalar values of a line say.
fn statement(chars: &[u32], out: &mut [u8]) -> Option<Said>
    requires { Room plain_width chars.now 0 out.old 0 }
    ensures { Says (statement (ws chars.now)) result out.new }
{
    let at = skip_space(chars, 0);
    if ended(chars, at) {
        return Some(Said::Nothing);
    }
    triple_line(chars, at, out)
}

// What a line says, none where it is none of the grammar's. Its scalar values go into `chars`, the bytes of its terms into `out`.
pub fn line(bytes: &[u8], chars: &mut [u32], out: &mut [u8]) -> Option<Said>
    requires { LineFits bytes.now chars.old out.old }
    ensures { Says (line bytes.now) result out.new }
{
    let n = decode(bytes, &mut *chars)?;
    statement(&chars[..n], out)
}
