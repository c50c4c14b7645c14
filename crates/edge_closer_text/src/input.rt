// The input: lines, the first of them a count, the others three ids each.
ghost use Rattle.std.specs.Prelude.{◌≡◌, ◌+◌, ◌<◌, ◌≤◌, length, drop, unwrap_or, IfSome};
ghost use Rattle.edge_closer_text.specs.Sizes.{ids_length};
ghost use Rattle.edge_closer_text.specs.Input.{before, id_line};
ghost use Rattle.edge_closer_text.specs.Promises.{SpacesOf, ids_of, ParseOf};

use crate::output::THREE_WIDTH;
use common::LOAD_WIDTH;
use edge_decimal::number;

// The largest count of names, and the largest id.
const COUNT_LIMIT: u32 = 500;

const ID_LIMIT: u32 = 4294967295;

// The most id lines.
const LINE_LIMIT: usize = 1000;

// How many ids they have.
pub const IDS: usize = LOAD_WIDTH * LINE_LIMIT;

// The most bytes of the count's line, and of a good input: three numbers a line.
const COUNT_WIDTH: usize = 4;

pub const LONGEST: usize = COUNT_WIDTH + THREE_WIDTH * LINE_LIMIT;

// The first place from `at` on that has the byte.
pub fn find_byte(bytes: &[u8], at: usize, byte: u8) -> Option<usize>
    requires { at ≤ length bytes.now }
    ensures place { unwrap_or result (length bytes.now) ≡ at + length (before byte (drop at bytes.now)) }
    ensures within { IfSome result (λ i. i < length bytes.now) }
{
    let place = bytes[at..].iter().position(|b| *b == byte)?;
    Some(at + place)
}

// Where the spaces of a line are, if there are two.
pub fn two_spaces(line: &[u8]) -> Option<(usize, usize)>
    ensures { SpacesOf line.now result }
{
    let a = find_byte(line, 0, b' ')?;
    let b = find_byte(line, a + 1, b' ')?;
    match find_byte(line, b + 1, b' ') {
        Some(_) => None,
        None => Some((a, b)),
    }
}

// The three ids of a line.
pub fn ids_of_line(line: &[u8]) -> Option<[u32; LOAD_WIDTH]>
    ensures { ids_of result ≡ id_line line.now }
{
    let (a, b) = two_spaces(line)?;
    let s = number(&line[..a], ID_LIMIT)?;
    let p = number(&line[a + 1..b], ID_LIMIT)?;
    let o = number(&line[b + 1..], ID_LIMIT)?;
    Some([s, p, o])
}

// What a good input says: the count, and how many id lines there are.
#[derive(Clone, Copy, Debug, PartialEq, Eq)]
pub struct Input {
    pub count: u32,
    pub lines: usize,
}

// The number of the first bad line.
#[derive(Clone, Copy, Debug, PartialEq, Eq)]
pub struct BadLine {
    pub number: u32,
}

// Reads the whole input; the ids go into `ids`, three a line, up to the first bad line.
pub fn parse(input: &[u8], ids: &mut [u32]) -> Result<Input, BadLine>
    requires { ids_length ≤ length ids.old }
    ensures { ParseOf input.now ids.old result ids.new }
{
    let first = find_byte(input, 0, b'\n').unwrap_or(input.len());
    let count = number(&input[..first], COUNT_LIMIT).ok_or(BadLine { number: 1 })?;
    let mut end = first;
    let mut lines: usize = 0;
    while end + 1 < input.len() {
        let bad = BadLine {
            number: lines as u32 + 2,
        };
        if lines == LINE_LIMIT {
            return Err(bad);
        }
        let start = end + 1;
        end = find_byte(input, start, b'\n').unwrap_or(input.len());
        let three = ids_of_line(&input[start..end]).ok_or(bad)?;
        let at = LOAD_WIDTH * lines;
        ids[at..at + LOAD_WIDTH].copy_from_slice(&three);
        lines += 1;
    }
    Ok(Input { count, lines })
}
