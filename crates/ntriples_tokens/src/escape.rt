// UCHAR and ECHAR.
ghost use Rattle.std.specs.Prelude.{◌≡◌, ◌≤◌, length, drop};
ghost use Rattle.ntriples.specs.Grammar.{hexes, uchar, escape};
ghost use Rattle.ntriples_utf8.specs.Promises.{scalar_of};
ghost use Rattle.ntriples_tokens.specs.Promises.{number_of, letters};

use crate::characters::{echar, hex};
use ntriples_utf8::{Scalar, fit};

// The number that hexadecimal digits write.
fn hexes(digits: &[u32]) -> Option<u32>
    requires { length digits.now ≤ 8 }
    ensures { number_of result ≡ hexes (length digits.now) 0 digits.now }
{
    let mut v = 0;
    for c in digits {
        v = 16 * v + hex(*c)?;
    }
    Some(v)
}

// UCHAR's digits, n of them.
fn uchar(chars: &[u32], at: usize, n: usize) -> Option<Scalar>
    requires { (at ≤ length chars.now) × (n ≤ 8) }
    ensures { scalar_of result ≡ uchar n (drop at chars.now) }
{
    let v = hexes(chars[at..].get(..n)?)?;
    fit(0, v, n + 1)
}

// An escape after its backslash: in an IRIREF UCHAR alone.
#[tactic(auto, unfolding(ntriples::specs::Grammar::escape))]
pub fn escape(chars: &[u32], at: usize, iri: bool) -> Option<Scalar>
    requires { at ≤ length chars.now }
    ensures { scalar_of result ≡ escape (letters iri) (drop at chars.now) }
{
    let c = *chars.get(at)?;
    match c {
        117 => uchar(chars, at + 1, 4), // u
        85 => uchar(chars, at + 1, 8), // U
        _ if iri => None,
        _ => {
            let value = echar(c)?;
            Some(Scalar { value, extra: 1 })
        }
    }
}
