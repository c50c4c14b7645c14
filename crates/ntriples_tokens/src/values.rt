// What reading a token answers, and how its characters are written.
ghost use Rattle.std.specs.Prelude.{◌≤◌, length};
ghost use Rattle.ntriples.specs.Utf8.{encode};
ghost use Rattle.ntriples_utf8.specs.Promises.{Wrote};
ghost use Rattle.ntriples_tokens.specs.Promises.{part, Room};

use ntriples_utf8::put_scalar;

// A token that was read: the place after it, and the place after its bytes.
#[derive(Clone, Copy)]
pub struct Token {
    pub next: usize,
    pub end: usize,
}

// Writes the scalar values from place `at` up to place `end`, and answers the place after their bytes.
pub fn put_part(chars: &[u32], at: usize, end: usize, out: &mut [u8], used: usize) -> usize
    requires { Room 0 chars.now at out.old used × (at ≤ end) × (end ≤ length chars.now) }
    ensures { Wrote out.old used (encode (part chars.now at end)) out.new result }
{
    let mut n = used;
    for c in &chars[at..end] {
        n = put_scalar(*c, &mut *out, n);
    }
    n
}
