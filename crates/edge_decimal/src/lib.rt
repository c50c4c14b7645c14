// Decimal numbers: digits without leading zeros.
#![tactic(auto)]

ghost use Rattle.std.specs.Prelude.{◌≡◌, ◌+◌, ◌≤◌, length};
ghost use Rattle.edge_decimal.specs.Decimal.{number as decimal·number, digits};
ghost use Rattle.edge_decimal.specs.Promises.{number_of, Wrote};

// The number that the bytes write, if it is at most `most`.
pub fn number(bytes: &[u8], most: u32) -> Option<u32>
    ensures { number_of result ≡ decimal·number most bytes.now }
{
    if bytes.is_empty() || 1 < bytes.len() && bytes[0] == b'0' {
        return None;
    }
    let mut value: u64 = 0;
    for b in bytes {
        if !b.is_ascii_digit() {
            return None;
        }
        value = 10 * value + u64::from(*b - b'0');
        if u64::from(most) < value {
            return None;
        }
    }
    Some(value as u32)
}

// Writes the digits of n from place `at` on, and answers the place after them.
pub fn put_number(n: u32, out: &mut [u8], at: usize) -> usize
    requires { at + length (digits n) ≤ length out.old }
    ensures { Wrote out.old at (digits n) out.new result }
{
    if n < 10 {
        out[at] = b'0' + n as u8;
        return at + 1;
    }
    let last = put_number(n / 10, &mut *out, at);
    out[last] = b'0' + (n % 10) as u8;
    last + 1
}
