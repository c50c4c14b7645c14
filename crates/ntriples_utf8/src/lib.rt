// UTF-8: bytes decoded to Unicode scalar values, and a scalar value written in bytes.
#![tactic(auto)]

ghost use Rattle.std.specs.Prelude.{◌≡◌, ◌+◌, ◌≤◌, ◌<◌, length, get_or, drop};
ghost use Rattle.ntriples.specs.Utf8.{tail, fit, two, three, four, first, encode_one};
ghost use Rattle.ntriples_utf8.specs.Promises.{scalar_of, Decodes, top, Wrote};

// A scalar value, and how many elements after the first it took.
#[derive(Clone, Copy)]
pub struct Scalar {
    pub value: u32,
    pub extra: usize,
}

// A scalar value that needs no fewer bytes.
pub fn fit(least: u32, v: u32, extra: usize) -> Option<Scalar>
    ensures { scalar_of result ≡ fit least v extra }
{
    if least <= v && matches!(v, 0..=0xD7FF | 0xE000..=0x10FFFF) {
        Some(Scalar { value: v, extra })
    } else {
        None
    }
}

// A byte that goes on.
fn tail(b: u8) -> bool
    ensures { result ≡ tail b }
{
    matches!(b, 128..=191)
}

// A lead byte's bits, with those of one byte more.
fn two(a: u32, bytes: &[u8], at: usize) -> Option<Scalar>
    requires { (a < 32) × (at ≤ length bytes.now) }
    ensures { scalar_of result ≡ two a (drop at bytes.now) }
{
    let &[b, ..] = &bytes[at..] else {
        return None;
    };
    if !tail(b) {
        return None;
    }
    fit(128, 64 * a + (u32::from(b) - 128), 1)
}

// With those of two bytes more.
fn three(a: u32, bytes: &[u8], at: usize) -> Option<Scalar>
    requires { (a < 16) × (at ≤ length bytes.now) }
    ensures { scalar_of result ≡ three a (drop at bytes.now) }
{
    let &[b, c, ..] = &bytes[at..] else {
        return None;
    };
    if !tail(b) || !tail(c) {
        return None;
    }
    fit(
        2048,
        4096 * a + 64 * (u32::from(b) - 128) + (u32::from(c) - 128),
        2,
    )
}

// With those of three bytes more.
fn four(a: u32, bytes: &[u8], at: usize) -> Option<Scalar>
    requires { (a < 8) × (at ≤ length bytes.now) }
    ensures { scalar_of result ≡ four a (drop at bytes.now) }
{
    let &[b, c, d, ..] = &bytes[at..] else {
        return None;
    };
    if !tail(b) || !tail(c) || !tail(d) {
        return None;
    }
    fit(
        65536,
        262144 * a + 4096 * (u32::from(b) - 128) + 64 * (u32::from(c) - 128) + (u32::from(d) - 128),
        3,
    )
}

// The scalar value that begins at a place.
#[tactic(auto, unfolding(ntriples::specs::Utf8::first))]
fn first(bytes: &[u8], at: usize) -> Option<Scalar>
    requires { at < length bytes.now }
    ensures { scalar_of result ≡ first (get_or bytes.now at 0) (drop (at + 1) bytes.now) }
{
    let a = u32::from(bytes[at]);
    match a {
        0..=127 => Some(Scalar { value: a, extra: 0 }),
        192..=223 => two(a - 192, bytes, at + 1),
        224..=239 => three(a - 224, bytes, at + 1),
        240..=247 => four(a - 240, bytes, at + 1),
        _ => None,
    }
}

// Decodes all the bytes; the scalar values go into `chars`, from its first place on. Answers how many there are, if the bytes are
// UTF-8.
pub fn decode(bytes: &[u8], chars: &mut [u32]) -> Option<usize>
    requires { length bytes.now ≤ length chars.old }
    ensures { Decodes bytes.now result chars.new }
{
    let mut i = 0;
    let mut n = 0;
    // i goes on by as many bytes as the scalar value took
    while i < bytes.len() {
        let b = bytes[i];
        if b < 128 {
            chars[n] = u32::from(b);
            n += 1;
            i += 1;
            continue;
        }
        let c = first(bytes, i)?;
        chars[n] = c.value;
        n += 1;
        i += 1 + c.extra;
    }
    Some(n)
}

// Writes the bytes of a scalar value from place `at` on, and answers the place after them.
pub fn put_scalar(c: u32, out: &mut [u8], at: usize) -> usize
    requires { (c ≤ top) × (at + 4 ≤ length out.old) }
    ensures { Wrote out.old at (encode_one c) out.new result }
{
    match c {
        0..=0x7F => {
            out[at] = c as u8;
            at + 1
        }
        0x80..=0x7FF => {
            out[at] = (192 + c / 64) as u8;
            out[at + 1] = (128 + c % 64) as u8;
            at + 2
        }
        0x800..=0xFFFF => {
            out[at] = (224 + c / 4096) as u8;
            out[at + 1] = (128 + c / 64 % 64) as u8;
            out[at + 2] = (128 + c % 64) as u8;
            at + 3
        }
        _ => {
            out[at] = (240 + c / 262144) as u8;
            out[at + 1] = (128 + c / 4096 % 64) as u8;
            out[at + 2] = (128 + c / 64 % 64) as u8;
            out[at + 3] = (128 + c % 64) as u8;
            at + 4
        }
    }
}
