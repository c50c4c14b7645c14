// LANGTAG.
ghost use Rattle.std.specs.Prelude.{◌≡◌, ◌≤◌, length, drop};
ghost use Rattle.ntriples.specs.Characters.{tag};
ghost use Rattle.ntriples.specs.Grammar.{langtag};
ghost use Rattle.ntriples_tokens.specs.Promises.{Room, Parses, TagEnds};

use crate::characters::{digit, letter, tag_char};
use crate::values::{Token, put_part};

// Where the characters that a tag may have end.
#[tactic(auto, unfolding(ntriples::specs::Grammar::tag_run))]
fn tag_end(chars: &[u32], at: usize) -> usize
    requires { at ≤ length chars.now }
    ensures { TagEnds chars.now at result }
{
    for i in at..chars.len() {
        if !tag_char(chars[i]) {
            return i;
        }
    }
    chars.len()
}

// Whether bytes are a tag: letters, then parts of letters and digits, each behind a hyphen.
#[tactic(auto, unfolding(ntriples::specs::Characters::tag, ntriples::specs::Characters::tag_from))]
pub fn tag(bytes: &[u8]) -> bool
    ensures { result ≡ tag bytes.now }
{
    let mut letters = true;
    let mut seen = false;
    for b in bytes {
        let c = u32::from(*b);
        if *b == b'-' {
            if !seen {
                return false;
            }
            letters = false;
            seen = false;
        } else if letter(c) || !letters && digit(c) {
            seen = true;
        } else {
            return false;
        }
    }
    seen
}

// What follows '@'.
pub fn langtag(chars: &[u32], at: usize, out: &mut [u8], used: usize) -> Option<Token>
    requires { Room 0 chars.now at out.old used }
    ensures { Parses 0 chars.now at out.old used (langtag (drop at chars.now)) result
        out.new }
{
    let next = tag_end(chars, at);
    let end = put_part(chars, at, next, &mut *out, used);
    if tag(&out[used..end]) {
        Some(Token { next, end })
    } else {
        None
    }
}
