// The text: decimal numbers, each ended by a space or a line feed.
ghost use Rattle.std.specs.Prelude.{◌≡◌, ◌+◌, ◌≤◌, length, nat_lt};
ghost use Rattle.common.specs.Triples.{if};
ghost use Rattle.trial_buffers.specs.Reading.{ends, end_from, read_from, read_of, cursor_after, number_after, any, is_byte};
ghost use Rattle.trial_buffers.specs.Reading.{byte_of as byte·of};
ghost use Rattle.trial_buffers.specs.Memory.{Each};

use edge_decimal::number;

// A place in the text, and whether all before it could be read. No Result: the place is said too where a number could not be read.
#[derive(Clone, Copy)]
pub struct Cursor {
    pub at: usize,
    pub ok: bool,
}

// A number, if it could be read, and the place after the byte that ends it.
#[derive(Clone, Copy)]
pub struct Read {
    pub value: Option<u32>,
    pub at: usize,
}

fn ends_number(b: u8) -> bool
    ensures { result ≡ ends b }
{
    matches!(b, b' ' | b'\n')
}

// Where the number that begins at a place ends.
fn end_of_number(text: &[u8], at: usize) -> usize
    requires { at ≤ length text.now }
    ensures { (result ≡ end_from text.now at) × (at ≤ result) × (result ≤ length text.now) }
{
    for end in at..text.len() {
        if ends_number(text[end]) {
            return end;
        }
    }
    text.len()
}

// The place after the byte that ends a number, if the text goes on.
fn after(text: &[u8], end: usize) -> usize
    ensures { result ≡ if (nat_lt end (length text.now)) (λ _. end + 1) (λ _. end) }
{
    if end < text.len() { end + 1 } else { end }
}

// The number that begins at a place.
pub fn read_number(text: &[u8], at: usize) -> Read
    ensures { read_of result ≡ read_from text.now at }
{
    if text.len() < at {
        return Read { value: None, at };
    }
    let end = end_of_number(text, at);
    match number(&text[at..end], u32::MAX) {
        None => Read { value: None, at },
        Some(value) => Read {
            value: Some(value),
            at: after(text, end),
        },
    }
}

// Fills the row with the numbers from the cursor on.
pub fn read_row(text: &[u8], from: Cursor, row: &mut [u32]) -> Cursor
    ensures { (result ≡ cursor_after any text.now from (length row.old))
        × Each (number_after any text.now from) row.new }
{
    let mut end = from;
    for number in row.iter_mut() {
        let read = read_number(text, end.at);
        *number = read.value.unwrap_or(0);
        end = Cursor {
            at: read.at,
            ok: end.ok && read.value.is_some(),
        };
    }
    end
}

// Fills the row with the bytes whose numbers stand from the cursor on.
// A loop of its own, and not one with `read_row` over a type parameter: the contract of that would have to say, of any closure, which
// numbers it makes nothing of and what stands in the row then, in more lines than the loop has.
pub fn read_bytes(text: &[u8], from: Cursor, row: &mut [u8]) -> Cursor
    ensures { (result ≡ cursor_after is_byte text.now from (length row.old))
        × Each (λ k. byte·of (number_after is_byte text.now from k)) row.new }
{
    let mut end = from;
    for byte in row.iter_mut() {
        let read = read_number(text, end.at);
        let value = read.value.and_then(|n| u8::try_from(n).ok());
        *byte = value.unwrap_or(0);
        end = Cursor {
            at: read.at,
            ok: end.ok && value.is_some(),
        };
    }
    end
}
