// Buffers of bytes at the C boundary, and the numbers that they hold.
#![tactic(auto)]

ghost use Rattle.std.specs.Prelude.{◌≡◌, ◌*◌, T, length};
ghost use Rattle.common.specs.Refusals.{answer_number};
ghost use Rattle.edge_bytes.specs.Bytes.{numbers_of, bytes_of, changes, left_bytes, forwarded, cleared};

use common::Refusal;
use dictionary_layout::bytes::clear_bytes;

// Reads the numbers of the bytes; where they are not as many as the bytes have, what is read is free.
pub fn read_numbers(bytes: &[u8], numbers: &mut [u32])
    ensures { length bytes.now ≡ 4 * length numbers.old
        → numbers.new ≡ numbers_of bytes.now }
{
    let (fours, _) = bytes.as_chunks::<4>();
    for i in 0..numbers.len().min(fours.len()) {
        numbers[i] = u32::from_le_bytes(fours[i]);
    }
}

// Writes the numbers as bytes.
pub fn write_numbers(numbers: &[u32], bytes: &mut [u8])
    requires { length bytes.old ≡ 4 * length numbers.now }
    ensures { bytes.new ≡ bytes_of numbers.now }
{
    for (i, number) in numbers.iter().enumerate() {
        bytes[4 * i..4 * i + 4].copy_from_slice(&number.to_le_bytes());
    }
}

// Whether a call that answers this number may have changed a buffer.
#[tactic(auto, unfolding(crate::specs::Bytes::changes))]
fn changes_buffers(number: u32) -> bool
    ensures { result ≡ changes number }
{
    matches!(number, 0 | 8 | 9)
}

// Writes the numbers that a call left back into their buffer, unless its answer says that it changed none.
#[tactic(auto, unfolding(crate::specs::Bytes::left_bytes))]
pub fn write_back(answer: u32, numbers: &[u32], bytes: &mut [u8])
    requires { T (changes answer) → length bytes.old ≡ 4 * length numbers.now }
    ensures { bytes.new ≡ left_bytes answer bytes.old numbers.now }
{
    if changes_buffers(answer) {
        write_numbers(numbers, bytes);
    }
}

// How many numbers a call is passed for a buffer of so many bytes.
#[tactic(auto, unfolding(crate::specs::Bytes::forwarded))]
pub fn how_many(bytes: usize, most: usize, more: usize) -> usize
    ensures { result ≡ forwarded most more bytes }
{
    if bytes % 4 != 0 {
        return 1;
    }
    if bytes / 4 <= most {
        return bytes / 4;
    }
    more
}

// Makes all bytes zero, unless the answer of the call says that it changed no buffer.
#[tactic(auto, unfolding(crate::specs::Bytes::cleared))]
pub fn clear_back(answer: u32, bytes: &mut [u8])
    ensures { bytes.new ≡ cleared answer bytes.old }
{
    if changes_buffers(answer) {
        clear_bytes(bytes);
    }
}

// The number that C has for an answer: that of the refusal, or 0.
pub fn number_of_answer<T>(answer: &Result<T, Refusal>) -> u32
    ensures { result ≡ answer_number answer.now }
{
    match answer {
        Ok(_) => 0,
        Err(refusal) => refusal.number(),
    }
}
