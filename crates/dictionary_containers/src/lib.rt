// Container properties: named nodes of the rdf namespace whose local name is `_` and a number.
#![tactic(auto)]

ghost use Rattle.std.specs.Prelude.{◌≡◌, ◌≤◌, T, length, drop};
ghost use Rattle.common.specs.Digits.{all_digits};
ghost use Rattle.dictionary_containers.specs.Containers.{is_container_term, is_container};
ghost use Rattle.dictionary_containers.specs.ByDigits.{after_zeros, not_above, largest, in_range, is_number_by_digits};
ghost use Rattle.dictionary_layout.specs.Layout.{decode};
ghost use Rattle.dictionary_layout.specs.Dictionary.{valid};
ghost use Rattle.dictionary_layout.specs.Values.{contents};

use common::Id;
use dictionary_index::locate;
use dictionary_layout::Counters;

// The rdf namespace and the local name's `_`.
const PREFIX: [u8; 44] = *b"http://www.w3.org/1999/02/22-rdf-syntax-ns#_";

// The largest number, digit by digit.
const LARGEST: [u8; 20] = *b"18446744073709551615";

// Whether all bytes are ASCII digits.
fn all_digits(bytes: &[u8]) -> bool
    ensures { result ≡ all_digits bytes.now }
{
    bytes.iter().all(|b| b.is_ascii_digit())
}

// How many zeros lead.
fn leading_zeros(digits: &[u8]) -> usize
    ensures { (result ≤ length digits.now) × (drop result digits.now ≡ after_zeros digits.now) }
{
    for (i, digit) in digits.iter().enumerate() {
        if *digit != b'0' {
            return i;
        }
    }
    digits.len()
}

// Twenty digits, compared with the largest number's: whether the first one that differs is smaller, or none differs.
fn not_above_largest(digits: &[u8]) -> bool
    requires { length digits.now ≡ 20 }
    ensures { result ≡ not_above digits.now largest }
{
    digits <= &LARGEST[..]
}

// The cases, by how many digits are left after leading zeros.
#[tactic(auto, unfolding(crate::specs::ByDigits::in_range))]
fn in_range(digits: &[u8]) -> bool
    ensures { result ≡ in_range digits.now }
{
    let count = digits.len();
    if count < 1 || 20 < count {
        return false;
    }
    count < 20 || not_above_largest(digits)
}

// Whether the bytes are a container property's number: digits, and after leading zeros one of the cases that pass.
fn is_number(bytes: &[u8]) -> bool
    ensures { result ≡ is_number_by_digits bytes.now }
{
    if !all_digits(bytes) {
        return false;
    }
    let zeros = leading_zeros(bytes);
    in_range(&bytes[zeros..])
}

// Whether a term is a container property.
pub fn is_container_term(kind: u32, bytes: &[u8]) -> bool
    ensures { result ≡ is_container_term kind bytes.now }
{
    if kind != 1 {
        return false;
    }
    match bytes.strip_prefix(&PREFIX) {
        Some(number) => is_number(number),
        None => false,
    }
}

// Whether the term of an id is a container property, in a dictionary that is not broken; no term is none.
pub fn is_container(table: &[u32], arena: &[u8], counters: Counters, id: Id) -> bool
    requires { T (valid (contents table.now arena.now counters)) }
    ensures { result ≡ is_container (decode (contents table.now arena.now counters)) id.0 }
{
    let place = locate(table, arena, counters, id);
    is_container_term(place.kind, &arena[place.start..place.end])
}
